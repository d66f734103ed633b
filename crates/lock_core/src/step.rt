//! The atomic steps of the protocol: those of hypervisor calls, those of accesses, and splits and
//! joins.
use entry_model::Op;

/// One atomic step of an actor, on one word of one entry; a split or a join is on none.
#[derive(Clone, Copy, PartialEq, Eq, Debug)]
pub enum Step {
    /// Sets the lock bit, for an operation other than an access. The actor holds the entry where
    /// the bit was clear.
    Lock { entry: u32, op: Op },
    /// Loads the control word, for an access: to begin it, or to decide an access that sets no bit.
    Look { entry: u32, op: Op },
    /// Loads the first or the second data word.
    LoadData { second: bool },
    /// Sets the shut bit. The word found has the R and C that count.
    Shut,
    /// Stores the first or the second data word of the state after.
    StoreData { second: bool },
    /// Stores the control word of the state after, without lock and shut.
    Settle,
    /// Clears the lock bit, after an operation that changes nothing.
    Release,
    /// Sets the bits that an access sets, where the control word is still the one that was noted.
    Mark,
    /// Makes another actor live.
    Split { to: u32 },
    /// Takes the receipts and the lines of another actor, which is then no longer live.
    Join { from: u32 },
}
