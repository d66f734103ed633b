//! The state to which a table would close each entry, read by a pass with all shares while the
//! table lasts.
ghost use Rattle.std.specs.Prelude.{◌≡◌, ◌<◌, length};
ghost use Rattle.hpte_fields.specs.TableSize.{entry_count};
ghost use Rattle.lock_core.specs.declared.phase.Phase.TheVariants.{Idle};
ghost use Rattle.entry_lock.specs.PassOfTable.{IsOf, view_of};
ghost use Rattle.entry_lock.specs.PassInvariants.{IsActing, IsAt};
ghost use Rattle.entry_lock.specs.Resting.{IsClosingWord, Rests};

use crate::control_word::control_of;
use crate::layout::{CONTROL, WORDS_PER_ENTRY, data_index};
use crate::rest_plays::RestLoads;
use crate::rule::{PassSeat, Words};
use crate::table::{LockTable, Pass};
use entry_model::EntryState;
use lock_core::state_of;

/// Loads a word by a pass with all shares. It changes nothing.
fn load_at_rest(table: &Words, seat: &mut PassSeat, index: usize) -> u64
    requires table { IsAt table.now.table_id seat.old.table_id table.now.key seat.old.me }
    requires index { index < table.now.table_id.words }
    requires acting { IsActing seat.old.me.0 }
    requires idle { seat.old.me.0.actor.phase ≡ Idle }
    requires all { length seat.old.me.0.numbers ≡ seat.old.me.0.passes }
    ensures table { seat.new.table_id ≡ seat.old.table_id }
    ensures same { seat.new.me ≡ seat.old.me }
    ensures closes { IsClosingWord seat.old.me.0.opening seat.old.me.0 index result }
{
    table.load::<RestLoads>(seat, index)
}

impl LockTable {
    /// The state that an entry closes to, by a pass with all shares. It takes no step, and three
    /// loads.
    pub fn state_at_rest(&self, pass: &mut Pass, entry: u32) -> EntryState
        requires table { IsOf self.now pass.old }
        requires all { pass.old.shares ≡ self.now.passes }
        requires in_table { entry < entry_count self.now.order }
        ensures table { IsOf self.now pass.new }
        ensures shares { pass.new.shares ≡ pass.old.shares }
        ensures view { view_of pass.new ≡ view_of pass.old }
        ensures rests { Rests self.now.opening.items (view_of pass.old) entry result }
    {
        let words = &self.table.shared;
        let control = load_at_rest(
            words,
            &mut pass.seat,
            WORDS_PER_ENTRY * entry as usize + CONTROL,
        );
        let first = load_at_rest(words, &mut pass.seat, data_index(entry, false));
        let second = load_at_rest(words, &mut pass.seat, data_index(entry, true));
        state_of(&control_of(control), first, second)
    }
}
