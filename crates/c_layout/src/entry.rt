//! A page table entry in the memory of C: its state, the mark that each change of it sets, and the
//! laws of marks.
ghost use Rattle.std.specs.Prelude.{◌≡◌};
ghost use Rattle.entry_model.specs.History.{state_eq};
ghost use Rattle.c_layout.specs.Entries.{HoldWhatTheyAreGiven, ChangesAreMarked, MarksStay, UnmarkedAreUnchanged};

use entry_model::EntryState;
use hpt_resize::StateHolder;
use std::marker::Model;

/// One page table entry as C has it, in 24 bytes: its state, and a mark that shows whether the
/// state has changed since the mark was last taken. All zero is an empty one that isn't marked.
#[repr(C)]
#[derive(Clone, Copy)]
pub struct PaprEntry {
    /// Doubleword 0; 0 where the entry is not valid.
    pub dword0: u64,
    /// Doubleword 1, with R and C clear.
    pub dword1: u64,
    /// How often the entry has changed, except for R and C that accesses set.
    pub stamp: u32,
    /// V: the entry translates a page.
    pub valid: bool,
    /// R: the page was referenced.
    pub referenced: bool,
    /// C: the page was changed.
    pub changed: bool,
    /// Whether the state has changed since the mark was last taken.
    pub marked: bool,
}

impl Model for PaprEntry {
    ghost use Rattle.entry_model.specs.State.{IsCanonical};
    ghost use Rattle.c_layout.specs.Entries.{Entry};

    ghost Value = { Entry };

    ghost view = { λ e.
        record {
          state = record {
            valid = e.valid;
            dword0 = e.dword0;
            dword1 = e.dword1;
            referenced = e.referenced;
            changed = e.changed;
            stamp = e.stamp;
          };
          marked = e.marked;
        } };

    ghost invariant = { λ e. IsCanonical e.valid e.dword0 e.dword1 e.referenced e.changed };

    ghost inverse = { λ e.
        record {
          dword0 = e.state.dword0;
          dword1 = e.state.dword1;
          stamp = e.state.stamp;
          valid = e.state.valid;
          referenced = e.state.referenced;
          changed = e.state.changed;
          marked = e.marked;
        } };
}

/// Whether both states are the same.
#[inline]
#[tactic(auto, unfolding(entry_model::specs::History::state_eq))]
fn is_same(first: &EntryState, second: &EntryState) -> bool
    ensures { result ≡ state_eq first.now second.now }
{
    (first.valid == second.valid && first.dword0 == second.dword0 && first.dword1 == second.dword1)
        && (first.referenced == second.referenced
            && first.changed == second.changed
            && first.stamp == second.stamp)
}

impl PaprEntry {
    /// An entry with this state and this mark.
    #[inline]
    pub fn of(state: &EntryState, marked: bool) -> PaprEntry
        ensures { result ≡ record { state = state.now; marked = marked } }
    {
        PaprEntry {
            dword0: state.dword0,
            dword1: state.dword1,
            stamp: state.stamp,
            valid: state.valid,
            referenced: state.referenced,
            changed: state.changed,
            marked,
        }
    }
}

impl StateHolder for PaprEntry {
    ghost use Rattle.c_layout.specs.Entries.{entry_with};
    ghost use Rattle.c_layout.specs.EntryFacts.{held_as_given, same_entry};

    ghost held = { λ e. e.state };

    ghost holding = { entry_with };

    #[inline]
    fn state(&self) -> EntryState {
        EntryState {
            dword0: self.dword0,
            dword1: self.dword1,
            stamp: self.stamp,
            valid: self.valid,
            referenced: self.referenced,
            changed: self.changed,
        }
    }

    /// Marks the entry where this is another state than its own.
    #[inline]
    fn hold(&mut self, state: &EntryState) {
        let marked = self.marked || !is_same(&self.state(), state);
        *self = PaprEntry::of(state, marked);
    }

    ghost given = { held_as_given };

    ghost stays = { same_entry };
}

/// Entries hold the states that they were given, one for each.
pub fn hold_what_they_are_given()
    ensures { HoldWhatTheyAreGiven }
{}

/// An entry whose state is another one is marked.
pub fn changes_are_marked()
    ensures { ChangesAreMarked }
{}

/// A mark never falls.
pub fn marks_stay()
    ensures { MarksStay }
{}

/// An entry that isn't marked has the state that it had.
pub fn unmarked_are_unchanged()
    ensures { UnmarkedAreUnchanged }
{}
