//! The rule of the table: its words and the views of its passes show a state of `lock_core`'s
//! machine.
use atomic_table::{Seat, Shared, TableRule};
use entry_model::EntryState;
use lock_core::{Actor, Step};
use std::collections::LinkedList;
use std::snapshot::Snapshot;

/// What a pass knows. No value of it is made: contracts alone speak of it.
pub struct View {
    /// The actor numbers, of which it acts as the first. They are as many as its shares.
    pub numbers: LinkedList<u32>,
    /// The machine's actor: its phase, its receipts and the lines that it has seen.
    pub actor: Actor,
    /// The machine's steps that it took as this actor, of which the newest stands first.
    pub taken: LinkedList<Step>,
    /// For each entry the stamp and the number of bits that it has come to, as one number.
    pub fronts: LinkedList<u64>,
    /// The first data word of the entry that it has shut is that of the state after.
    pub first_stored: bool,
    /// The second data word of the entry that it has shut is that of the state after.
    pub second_stored: bool,
    /// How many shares there are in all.
    pub passes: u32,
    /// The state of each entry at the opening.
    pub opening: LinkedList<EntryState>,
    /// How many lock steps, looks and marks it has taken.
    pub count: u64,
    /// The entry of the last of these.
    pub last: u32,
    /// The word noted at the last of these. At a lock step and a first look it is the word found.
    pub looked: u64,
    /// The word found at the last of these.
    pub found: u64,
}

/// What the table is made with.
#[derive(Drop)]
pub struct Opening {
    /// The state of each entry.
    pub states: Snapshot<Vec<EntryState>>,
    /// How many shares there are.
    pub passes: u32,
}

/// The rule of the table, which holds between any two atomic operations.
pub struct LockRule;

impl TableRule<u8, View, Opening> for LockRule {
    ghost use Rattle.entry_lock.specs.Views.{first_view};
    ghost use Rattle.entry_lock.specs.Rule.{ShowsRun};

    ghost holds = { ShowsRun };

    ghost first = { first_view };
}

/// The words that passes share.
pub type Words = Shared<u8, View, Opening, LockRule>;

/// The kit's token by which a pass takes steps on the words.
pub type PassSeat = Seat<u8, View>;
