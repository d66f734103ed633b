//! A pass of the running table with its share in the ownership of it: opening, splits, joins, and
//! the states that the table closes to.
ghost use Rattle.std.specs.Arc.{arc_value};
ghost use Rattle.entry_lock.specs.PassOfTable.{IsOf};
ghost use Rattle.entry_lock.specs.PassInvariants.{most_passes};

use entry_lock::{LockTable, Pass};
use entry_model::EntryState;
use std::alloc::Global;
use std::sync::Arc;

/// A pass with the table that it is of, which it owns together with the table's other passes.
#[derive(Drop)]
pub struct Sharer {
    pub(crate) table: Arc<LockTable, Global>,
    pub(crate) pass: Pass,
    pub ghost of: { IsOf (arc_value table) pass },
}

impl Sharer {
    ghost use Rattle.std.specs.Prelude.{◌≡◌, ◌≤◌, ◌<◌, IfSome, IfNone, vec_len};
    ghost use Rattle.hpte_fields.specs.TableSize.{IsTableOrder, entry_count};
    ghost use Rattle.shared_pass.specs.Shares.{IsOpened, IsSplit, IsJoined, has_all};
    ghost use Rattle.shared_pass.specs.Reading.{OnlyReads, RestsIn};

    /// Opens a table of these states, with all shares. `None` for want of memory.
    pub fn open(alloc: Global, states: Vec<EntryState>, order: u8, passes: u32) -> Option<Sharer>
        requires order { IsTableOrder order }
        requires whole { vec_len states ≡ entry_count order }
        requires some_pass { 0 < passes }
        requires few { passes ≤ most_passes }
        ensures { IfSome result (λ s. IsOpened states.items order passes s) }
    {
        let Ok((table, pass)) = LockTable::open(alloc, states, order, passes) else {
            return None;
        };
        let Ok(table) = Arc::new(alloc, table) else {
            return None;
        };
        Some(Sharer { table, pass })
    }

    /// The binary logarithm of the table's size in bytes.
    pub fn order(&self) -> u8
        ensures value { result ≡ (arc_value self.now.table).order }
        ensures order { IsTableOrder result }
    {
        self.table.order()
    }

    /// How many shares it has.
    pub fn shares(&self) -> u32
        ensures { result ≡ self.now.pass.shares }
    {
        self.pass.shares()
    }

    /// Whether it has all shares of its table.
    pub fn has_all(&self) -> bool
        ensures { result ≡ has_all self.now }
    {
        self.pass.shares() == self.table.passes()
    }

    /// A new pass with one of the shares. It takes no memory. `None` where the table has as many
    /// owners as it can have; then nothing changes.
    pub fn split(&mut self) -> Option<Sharer>
        requires { 2 ≤ self.old.pass.shares }
        ensures split { IfSome result (λ other. IsSplit self.old self.new other) }
        ensures same { IfNone result (self.new ≡ self.old) }
    {
        let Ok(table) = Arc::try_clone(&self.table) else {
            return None;
        };
        let pass = self.pass.split(&self.table);
        Some(Sharer { table, pass })
    }

    /// Takes in another pass of the same table.
    pub fn join(&mut self, other: Sharer)
        requires { arc_value other.table ≡ arc_value self.old.table }
        ensures { IsJoined self.old other self.new }
    {
        let Sharer { table: _, pass } = other;
        self.pass.join(&self.table, pass);
    }

    /// The state that an entry of the table closes to, by a pass with all shares.
    pub fn state_at_rest(&mut self, entry: u32) -> EntryState
        requires all { self.old.pass.shares ≡ (arc_value self.old.table).passes }
        requires in_table { entry < entry_count (arc_value self.old.table).order }
        ensures same { OnlyReads self.old self.new }
        ensures rests { RestsIn self.old entry result }
    {
        self.table.state_at_rest(&mut self.pass, entry)
    }
}
