//! The machine itself: the checks that allow or refuse a step, and the step on its entries and
//! actors.
ghost use Rattle.std.specs.Prelude.{◌≡◌, ◌≢◌, ◌<◌, ◌==◌, ◌||◌, [], length, map, replicate, slice_set, nat_lt, true, Err, IfOk, OnOk, OnErr, IfNone, IsOk, IsTrue, IsOkUnless, MatchBool, MatchOption};
ghost use Rattle.lock_core.specs.Words.{unheld_entry as quiet_entry_of};
ghost use Rattle.lock_core.specs.Machine.{most_actors, opening_machine, nobody as nobody_of, newcomer as newcomer_of, actor_at, opening_at as opening_of, in_table as is_in_table, words_seen as seen_words_of};
ghost use Rattle.lock_core.specs.Steps.{may_act as may_act_of, names_entry as names_entry_of, fits_entry as fits_entry_of, fits_phase as fits_phase_of, is_idle as is_idle_of, refusal as refusal_of, is_allowed, after_allowed_step, after_step, entry_of as entry_by, step_result_of, with_result, split_off, join_in, takes_memory};
ghost use Rattle.lock_core.specs.Laws.{published_state};

use crate::actors::{child, first, go, join, nobody};
use crate::seeing::seen_in;
use crate::taking::{entry_of, fits, take_step};
use crate::words::quiet_entry;
use entry_model::{EntryState, Receipt};
use lock_core::{Actor, Control, CoreError, Entry, MOST_ACTORS, Phase, Sighting, Step};
use std::alloc::{AllocError, Global};
use std::marker::Model;
use std::mem::replace;

/// A table of entries and the actors that take steps on it. Contracts see it as the machine of
/// `lock_core`'s `specs/Machine.antt`.
#[derive(Drop)]
pub struct Core {
    opening: Vec<EntryState>,
    entries: Vec<Entry>,
    actors: Vec<Actor>,
}

impl Model for Core {
    ghost use Rattle.lock_core.specs.Machine.{Machine};

    ghost Value = { Machine };

    ghost view = { λ c.
        record { opening = c.opening.items; entries = c.entries.items; actors = c.actors.items } };
}

/// Whether an actor in this phase is at no operation.
fn is_idle(phase: &Phase) -> bool
    ensures { result ≡ is_idle_of phase.now }
{
    matches!(*phase, Phase::Idle)
}

/// The entries of these states, which nobody holds.
fn quiet_entries(alloc: Global, states: &[EntryState]) -> Result<Vec<Entry>, AllocError>
    ensures { IfOk result (λ v. v.items ≡ map quiet_entry_of states.now) }
{
    let mut entries = Vec::new(alloc);
    for state in states {
        entries.push(quiet_entry(state))?;
    }
    Ok(entries)
}

/// This many actors, of which the first alone is live.
fn first_actors(alloc: Global, count: u32) -> Result<Vec<Actor>, AllocError>
    requires { 0 < count }
    ensures { IfOk
        result
        (λ v. v.items ≡ slice_set (replicate count nobody_of) 0 (newcomer_of [])) }
{
    let mut actors = Vec::new(alloc);
    for _i in 0..count {
        actors.push(nobody(alloc))?;
    }
    actors[0] = first(alloc);
    Ok(actors)
}

/// A copy of the states.
fn copied(alloc: Global, states: &[EntryState]) -> Result<Vec<EntryState>, AllocError>
    ensures { IfOk result (λ v. v.items ≡ states.now) }
{
    let mut copy = Vec::new(alloc);
    copy.extend_from_slice(states)?;
    Ok(copy)
}

impl Core {
    /// A table of entries in these states, and this many actors, of which actor 0 is live and the
    /// others are not. `Actors` where there are none or more than 64.
    pub fn new(alloc: Global, states: &[EntryState], actors: u32) -> Result<Core, CoreError>
        ensures refused { MatchBool
            (actors == 0 || nat_lt most_actors actors)
            (result ≡ Err CoreError.Actors)
            (IsOkUnless result CoreError.Memory) }
        ensures ok { IfOk result (λ core. core ≡ opening_machine states.now actors) }
        ensures entries { IfOk result (λ core. length core.entries ≡ length states.now) }
        ensures actors { IfOk result (λ core. length core.actors ≡ actors) }
    {
        if actors == 0 || actors > MOST_ACTORS {
            return Err(CoreError::Actors);
        }
        match Core::open(alloc, states, actors) {
            Ok(core) => Ok(core),
            Err(_) => Err(CoreError::Memory),
        }
    }

    #[tactic(auto, unfolding(lock_core::specs::Machine::opening_machine))]
    fn open(alloc: Global, states: &[EntryState], actors: u32) -> Result<Core, AllocError>
        requires { 0 < actors }
        ensures ok { IfOk result (λ core. core ≡ opening_machine states.now actors) }
        ensures entries { IfOk result (λ core. length core.entries ≡ length states.now) }
        ensures actors { IfOk result (λ core. length core.actors ≡ actors) }
    {
        let opening = copied(alloc, states)?;
        let entries = quiet_entries(alloc, states)?;
        let actors = first_actors(alloc, actors)?;
        Ok(Core {
            opening,
            entries,
            actors,
        })
    }

    /// Whether an actor is there and live.
    fn is_live(&self, actor: u32) -> bool
        ensures { result ≡ (actor_at self.now actor).live }
    {
        match self.actors.get(actor as usize) {
            Some(a) => a.live,
            None => false,
        }
    }

    /// The phase of an actor; one that isn't there is idle.
    fn phase_of(&self, actor: u32) -> Phase
        ensures { result ≡ (actor_at self.now actor).phase }
    {
        match self.actors.get(actor as usize) {
            Some(a) => a.phase,
            None => Phase::Idle,
        }
    }

    /// Whether an entry is in the table.
    fn in_table(&self, entry: u32) -> bool
        ensures { result ≡ is_in_table self.now entry }
    {
        (entry as usize) < self.entries.len()
    }

    /// Whether the actor is live, and the other one of a split or a join can take part.
    #[tactic(auto, unfolding(lock_core::specs::Steps::may_act))]
    fn may_act(&self, actor: u32, step: &Step) -> bool
        ensures { result ≡ may_act_of self.now actor step.now }
    {
        match *step {
            Step::Split { to } => {
                self.is_live(actor) && (to as usize) < self.actors.len() && !self.is_live(to)
            }
            Step::Join { from } => self.is_live(actor) && self.is_live(from) && from != actor,
            _ => self.is_live(actor),
        }
    }

    /// Whether the entry that the step names is in the table.
    #[tactic(auto, unfolding(lock_core::specs::Steps::names_entry))]
    fn names_entry(&self, step: &Step) -> bool
        ensures { result ≡ names_entry_of self.now step.now }
    {
        match *step {
            Step::Lock { entry, op: _ } => self.in_table(entry),
            Step::Look { entry, op: _ } => self.in_table(entry),
            _ => true,
        }
    }

    /// Whether the phase of the actor allows a step on an entry.
    fn fits_entry(&self, actor: u32, step: &Step) -> bool
        ensures { result ≡ fits_entry_of self.now actor step.now }
    {
        let phase = self.phase_of(actor);
        match self.entries.get(entry_of(&phase, step) as usize) {
            Some(entry) => fits(entry, &phase, step),
            None => false,
        }
    }

    /// Whether the phase of the actor allows the step.
    #[tactic(auto, unfolding(lock_core::specs::Steps::fits_phase))]
    fn fits_phase(&self, actor: u32, step: &Step) -> bool
        ensures { result ≡ fits_phase_of self.now actor step.now }
    {
        match *step {
            Step::Split { to: _ } => is_idle(&self.phase_of(actor)),
            Step::Join { from } => is_idle(&self.phase_of(actor)) && is_idle(&self.phase_of(from)),
            _ => self.fits_entry(actor, step),
        }
    }

    /// Why the step isn't taken: the first cause in their order.
    #[tactic(auto, unfolding(lock_core::specs::Steps::refusal, lock_core::specs::Steps::refusals))]
    fn refusal(&self, actor: u32, step: &Step) -> Option<CoreError>
        ensures { result ≡ refusal_of self.now actor step.now }
    {
        if !self.may_act(actor, step) {
            return Some(CoreError::Actor);
        }
        if !self.names_entry(step) {
            return Some(CoreError::Entry);
        }
        if !self.fits_phase(actor, step) {
            return Some(CoreError::Phase);
        }
        None
    }

    /// The lines that an actor has in its list.
    fn lines_of(&self, actor: u32) -> &[Sighting]
        ensures { result.now ≡ (actor_at self.now actor).lines }
    {
        match self.actors.get(actor as usize) {
            Some(a) => a.lines.as_slice(),
            None => &[],
        }
    }

    /// The state of an entry before all steps.
    fn opening_at(&self, entry: u32) -> EntryState
        ensures { result ≡ opening_of self.now entry }
    {
        match self.opening.get(entry as usize) {
            Some(state) => *state,
            None => EntryState::empty(0),
        }
    }

    /// What an actor that finds a control word has seen of its entry at its stamp.
    #[tactic(auto, unfolding(lock_core::specs::Machine::words_seen))]
    fn seen_words(&self, actor: u32, entry: u32, found: &Control) -> Option<(u64, u64)>
        ensures { result ≡ seen_words_of self.now (actor_at self.now actor) entry found.now }
    {
        if !found.valid {
            return None;
        }
        seen_in(
            self.lines_of(actor),
            &self.opening_at(entry),
            entry,
            found.stamp,
        )
    }

    /// Takes a step on an entry.
    fn take_step(&mut self, actor: u32, step: &Step) -> Result<(), CoreError>
        requires live { (actor_at self.old actor).live ≡ true }
        requires fits { fits_entry_of self.old actor step.now ≡ true }
        ensures ok { OnOk
            result
            (self.new
            ≡ with_result
            self.old
            (entry_by (actor_at self.old actor).phase step.now)
            actor
            (step_result_of self.old actor step.now)) }
        ensures err { OnErr result (self.new ≡ self.old) }
        ensures memory { IsOkUnless result CoreError.Memory }
        ensures without_receipt { IfNone
            (step_result_of self.old actor step.now).made
            (IsOk result) }
    {
        let phase = self.phase_of(actor);
        let e = entry_of(&phase, step);
        let entry = self.entries[e as usize];
        let seen = self.seen_words(actor, e, &entry.control);
        let result = take_step(seen, &entry, &phase, step);
        go(&mut self.actors[actor as usize], result.phase, result.made)?;
        self.entries[e as usize] = result.entry;
        Ok(())
    }

    /// Makes another actor live.
    fn split(&mut self, alloc: Global, actor: u32, to: u32) -> Result<(), CoreError>
        requires live { (actor_at self.old actor).live ≡ true }
        requires there { to < length self.old.actors }
        ensures ok { OnOk result (self.new ≡ split_off self.old actor to) }
        ensures err { OnErr result (self.new ≡ self.old) }
        ensures memory { IsOkUnless result CoreError.Memory }
    {
        let parted = child(&self.actors[actor as usize], alloc)?;
        self.actors[to as usize] = parted;
        Ok(())
    }

    /// Takes what another actor has.
    fn join(&mut self, alloc: Global, actor: u32, from: u32) -> Result<(), CoreError>
        requires live { (actor_at self.old actor).live ≡ true }
        requires other { (actor_at self.old from).live ≡ true }
        requires apart { from ≢ actor }
        ensures ok { OnOk result (self.new ≡ join_in self.old actor from) }
        ensures err { OnErr result (self.new ≡ self.old) }
        ensures memory { IsOkUnless result CoreError.Memory }
    {
        let other = replace(&mut self.actors[from as usize], nobody(alloc));
        match join(&mut self.actors[actor as usize], &other) {
            Ok(()) => Ok(()),
            Err(error) => {
                self.actors[from as usize] = other;
                Err(error)
            }
        }
    }

    /// Takes a step that is allowed.
    fn take(&mut self, alloc: Global, actor: u32, step: Step) -> Result<(), CoreError>
        requires { is_allowed self.old actor step ≡ true }
        ensures ok { OnOk result (self.new ≡ after_allowed_step self.old actor step) }
        ensures err { OnErr result (self.new ≡ self.old) }
        ensures memory { IsOkUnless result CoreError.Memory }
        ensures taking { result ≡ Err CoreError.Memory → IsTrue (takes_memory self.old actor step) }
    {
        match step {
            Step::Split { to } => self.split(alloc, actor, to),
            Step::Join { from } => self.join(alloc, actor, from),
            _ => self.take_step(actor, &step),
        }
    }

    /// Takes a step of an actor. A step that is refused changes nothing, and so does one for which
    /// there is not enough memory. Only a split, a join and a step that makes a receipt take
    /// memory.
    pub fn step(&mut self, alloc: Global, actor: u32, step: Step) -> Result<(), CoreError>
        ensures refused { MatchOption
            (refusal_of self.old actor step)
            (IsOkUnless result CoreError.Memory)
            (λ e. result ≡ Err e) }
        ensures memory { result ≡ Err CoreError.Memory → IsTrue (takes_memory self.old actor step) }
        ensures ok { OnOk result (self.new ≡ after_step self.old actor step) }
        ensures err { OnErr result (self.new ≡ self.old) }
        ensures entries { length self.new.entries ≡ length self.old.entries }
        ensures actors { length self.new.actors ≡ length self.old.actors }
    {
        match self.refusal(actor, &step) {
            Some(error) => Err(error),
            None => self.take(alloc, actor, step),
        }
    }

    /// The receipts of an actor, in the order of their making; those that a join brought come
    /// after those that were there.
    pub fn receipts(&self, actor: u32) -> &[Receipt]
        requires { actor < length self.now.actors }
        ensures { result.now ≡ (actor_at self.now actor).receipts }
    {
        let actor = &self.actors[actor as usize];
        actor.receipts.as_slice()
    }

    /// The state of an entry. One that is shut answers its state from before the shut.
    pub fn state(&self, entry: u32) -> EntryState
        requires { entry < length self.now.entries }
        ensures { result ≡ published_state self.now entry }
    {
        self.entries[entry as usize].published
    }
}
