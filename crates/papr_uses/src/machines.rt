//! A caller of `lock_core`: whatever steps actors take on locked entries, each entry's history is
//! legal.
ghost use Rattle.std.specs.Prelude.{◌≡◌, ◌==◌, ◌||◌, ℕ, ◌<◌, nat_lt, All, Err, IfOk, OnOk, OnErr, IsOkUnless, MatchBool, length, reverse, slice_index_or};
ghost use Rattle.entry_model.specs.History.{IsLegal, history};
ghost use Rattle.entry_model.specs.Run.{state_at};
ghost use Rattle.lock_core.specs.Laws.{IsFair, published_state};
ghost use Rattle.lock_core.specs.Machine.{opening_machine};
ghost use Rattle.lock_core.specs.Runs.{run, receipts_of};
ghost use Rattle.lock_core.specs.Steps.{after_step};

use entry_model::EntryState;
use lock_core::{CoreError, Step, every_history_is_legal};
use lock_machine::Core;
use std::alloc::Global;

/// Takes a step, or leaves it out where it isn't allowed.
#[tactic(auto, unfolding(lock_core::specs::Steps::after_step, lock_core::specs::Steps::is_allowed))]
fn try_step(core: &mut Core, alloc: Global, actor: u32, step: Step) -> Result<(), CoreError>
    ensures after { OnOk result (core.new ≡ after_step core.old actor step) }
    ensures memory { IsOkUnless result CoreError.Memory }
    ensures entries { length core.new.entries ≡ length core.old.entries }
    ensures actors { length core.new.actors ≡ length core.old.actors }
{
    match core.step(alloc, actor, step) {
        Err(CoreError::Memory) => Err(CoreError::Memory),
        _ => Ok(()),
    }
}

/// The machine after these steps of actors, taken in turn, on a table in these states. Steps that
/// aren't allowed are left out. Whatever they are, each entry has a legal history.
pub fn machine_after(
    alloc: Global,
    states: &[EntryState],
    actors: u32,
    steps: &[(u32, Step)],
) -> Result<Core, CoreError>
    requires { All IsFair states.now }
    ensures refused { MatchBool
        (actors == 0 || nat_lt 64 actors)
        (result ≡ Err CoreError.Actors)
        (IsOkUnless result CoreError.Memory) }
    ensures ran { IfOk
        result
        (λ core. core ≡ run (opening_machine states.now actors) (reverse steps.now)) }
    ensures legal { IfOk
        result
        (λ core.
        (e : ℕ)
        → e < length states.now
        → IsLegal
        (state_at states.now e)
        (history e (receipts_of core.actors))
        (published_state core e)) }
    ensures entries { IfOk result (λ core. length core.entries ≡ length states.now) }
    ensures actors { IfOk result (λ core. length core.actors ≡ actors) }
{
    every_history_is_legal();
    let mut core = Core::new(alloc, states, actors)?;
    for (actor, step) in steps {
        try_step(&mut core, alloc, *actor, *step)?;
    }
    Ok(core)
}
