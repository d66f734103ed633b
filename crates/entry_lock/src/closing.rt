//! The order and the shares of a table, and how a pass with all shares closes it to a list of
//! states.
ghost use Rattle.std.specs.Prelude.{◌≡◌, ◌≤◌};
ghost use Rattle.entry_lock.specs.PassOfTable.{IsOf, view_of};
ghost use Rattle.entry_lock.specs.Closing.{Closes};
ghost use Rattle.hpte_fields.specs.TableSize.{IsTableOrder};

use crate::control_word::control_of;
use crate::layout::{CONTROL, FIRST, SECOND, WORDS_PER_ENTRY};
use crate::table::{LockTable, Pass};
use entry_model::EntryState;
use lock_core::state_of;

/// The lists of a table that was closed, with a state for each entry.
#[derive(Drop)]
pub struct Closed {
    /// The list that the table was opened with.
    pub opening: Vec<EntryState>,
    /// The states at the end.
    pub closing: Vec<EntryState>,
}

impl LockTable {
    /// The binary logarithm of the table's size in bytes.
    pub fn order(&self) -> u8
        ensures value { result ≡ self.now.order }
        ensures order { IsTableOrder result }
    {
        self.order
    }

    /// How many shares there are.
    pub fn passes(&self) -> u32
        ensures { result ≡ self.now.passes }
    {
        self.passes
    }

    /// The states at the end, by a pass with all shares. It takes no memory: the room for the list
    /// was made at the opening.
    pub fn close(self, pass: Pass) -> Closed
        requires table { IsOf self pass }
        requires all { pass.shares ≡ self.passes }
        ensures opening { result.opening.items ≡ self.opening.items }
        ensures closes { Closes self.opening.items (view_of pass) result.closing.items }
    {
        let LockTable {
            table,
            order: _,
            passes: _,
            opening,
            mut closing,
        } = self;
        let Pass { seat, shares: _ } = pass;
        let closed = table.close_with(seat);
        for entry in 0..opening.len() {
            let control = control_of(closed.word(WORDS_PER_ENTRY * entry + CONTROL));
            let first = closed.word(WORDS_PER_ENTRY * entry + FIRST);
            let second = closed.word(WORDS_PER_ENTRY * entry + SECOND);
            closing.push_reserved(state_of(&control, first, second));
        }
        closed.free();
        Closed { opening, closing }
    }
}
