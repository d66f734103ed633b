//! An operation under way: the control word that its actor noted, and the doublewords that it
//! loaded or had seen.
ghost use Rattle.std.specs.Prelude.{◌≡◌, Some};
ghost use Rattle.lock_core.specs.Steps.{new_doing, with_noted as noted_by};

use crate::control::Control;
use entry_model::Op;

/// An operation that an actor is at: what it noted and loaded so far.
#[derive(Clone, Copy, PartialEq, Eq, Debug)]
pub struct Doing {
    /// The entry's index in its table.
    pub entry: u32,
    /// The operation.
    pub op: Op,
    /// The control word that the actor found.
    pub noted: Control,
    /// The first data word, where it was loaded.
    pub first: Option<u64>,
    /// The second data word, where it was loaded.
    pub second: Option<u64>,
    /// The doublewords that the actor has seen of the entry at the noted stamp.
    pub seen: Option<(u64, u64)>,
}

impl Doing {
    /// An operation that begins at this control word. `seen` is what the actor has seen of the
    /// entry at its stamp.
    pub fn new(entry: u32, op: Op, noted: Control, seen: Option<(u64, u64)>) -> Doing
        ensures { result ≡ new_doing entry op noted seen }
    {
        Doing {
            entry,
            op,
            noted,
            first: None,
            second: None,
            seen,
        }
    }

    /// The operation by the control word that was found.
    pub fn with_noted(self, found: Control) -> Doing
        ensures { result ≡ noted_by self found }
    {
        let mut next = self;
        next.noted = found;
        next
    }

    /// The operation with both data words.
    pub fn with_words(self, first: u64, second: u64) -> Doing
        ensures { result ≡ record self { first = Some first; second = Some second } }
    {
        let mut next = self;
        next.first = Some(first);
        next.second = Some(second);
        next
    }
}
