//! A pass with the call or the walk that it has to go on with, the receipts of that, and why it is
//! held up.
ghost use Rattle.shared_pass.specs.Held.{IsHeldBy};
ghost use Rattle.shared_pass.specs.HeldFacts.{held_prop};
ghost use Rattle.shared_pass.specs.Made.{order_of};
ghost use Rattle.entry_lock.specs.PassInvariants.{most_passes};

use crate::held::Pending;
use crate::sharer::Sharer;
use entry_lock::Busy;
use entry_model::{EntryState, Receipts};
use std::alloc::Global;

/// A pass at work: with what it has to go on with, if a call or a walk was held up.
#[derive(Drop)]
pub struct Working {
    /// The pass and its table.
    pub sharer: Sharer,
    /// What it has to go on with.
    pub pending: Pending,
    /// What that made so far; else the receipts of the last call.
    pub receipts: Receipts,
    /// Why it was held up.
    pub busy: Busy,
    pub ghost begun: { IsHeldBy (order_of sharer.table) pending receipts } by { held_prop _ _ _ },
}

impl Working {
    ghost use Rattle.std.specs.Prelude.{◌≡◌, ◌≤◌, ◌<◌, true, [], IfSome, IfNone, vec_len};
    ghost use Rattle.std.specs.Arc.{arc_value};
    ghost use Rattle.hpte_fields.specs.TableSize.{IsTableOrder, entry_count};
    ghost use Rattle.shared_pass.specs.declared.held.Pending.TheVariants.{Nothing};
    ghost use Rattle.shared_pass.specs.Shares.{AreOfOne};
    ghost use Rattle.shared_pass.specs.Reading.{OnlyReads, RestsIn};
    ghost use Rattle.shared_pass.specs.Workings as workings;

    /// A pass that has nothing to go on with.
    fn new(sharer: Sharer) -> Working
        ensures sharer { result.sharer ≡ sharer }
        ensures nothing { result.pending ≡ Nothing }
        ensures receipts { result.receipts ≡ [] }
    {
        Working {
            sharer,
            pending: Pending::Nothing,
            receipts: Receipts::new(),
            busy: Busy {
                entry: 0,
                looked: 0,
                found: 0,
            },
        }
    }

    /// Opens a table of these states, with all shares. `None` for want of memory.
    pub fn open(alloc: Global, states: Vec<EntryState>, order: u8, passes: u32) -> Option<Working>
        requires order { IsTableOrder order }
        requires whole { vec_len states ≡ entry_count order }
        requires some_pass { 0 < passes }
        requires few { passes ≤ most_passes }
        ensures { IfSome result (λ working. workings.IsNew states.items order passes working) }
    {
        let sharer = Sharer::open(alloc, states, order, passes)?;
        Some(Working::new(sharer))
    }

    /// The binary logarithm of the table's size in bytes.
    #[inline]
    pub fn order(&self) -> u8
        ensures value { result ≡ (arc_value self.now.sharer.table).order }
        ensures order { IsTableOrder result }
    {
        self.sharer.order()
    }

    /// How many shares the pass has.
    pub fn shares(&self) -> u32
        ensures { result ≡ self.now.sharer.pass.shares }
    {
        self.sharer.shares()
    }

    /// Whether the pass has all shares of its table.
    pub fn has_all_shares(&self) -> bool
        ensures { result ≡ workings.has_all_shares self.now }
    {
        self.sharer.has_all()
    }

    /// Whether it has nothing to go on with.
    #[inline]
    pub fn is_free(&self) -> bool
        ensures { result ≡ workings.is_free self.now }
    {
        self.pending.is_nothing()
    }

    /// A new pass with one of the shares. It takes no memory. `None` where the table has as many
    /// owners as it can have; then nothing changes.
    pub fn split(&mut self) -> Option<Working>
        requires { 2 ≤ self.old.sharer.pass.shares }
        ensures split { IfSome result (λ other. workings.IsSplitOff self.old self.new other) }
        ensures same { IfNone result (self.new ≡ self.old) }
    {
        let sharer = self.sharer.split()?;
        Some(Working::new(sharer))
    }

    /// Takes in another pass of the same table.
    pub fn join(&mut self, other: Working)
        requires one { AreOfOne self.old.sharer other.sharer }
        requires free { self.old.pending ≡ Nothing }
        ensures { workings.IsTakenIn self.old other self.new }
    {
        let Working {
            sharer,
            pending: _,
            receipts: _,
            busy: _,
        } = other;
        self.sharer.join(sharer);
    }

    /// Gives up what it has to go on with. What that made stays made.
    pub fn give_up(&mut self)
        ensures sharer { self.new.sharer ≡ self.old.sharer }
        ensures receipts { self.new.receipts ≡ self.old.receipts }
        ensures nothing { self.new.pending ≡ Nothing }
    {
        self.pending = Pending::Nothing;
    }

    /// The state that an entry of the table closes to, by a pass with all shares.
    pub fn state_at_rest(&mut self, entry: u32) -> EntryState
        requires all { workings.has_all_shares self.old ≡ true }
        requires in_table { entry < entry_count (arc_value self.old.sharer.table).order }
        ensures same { OnlyReads self.old.sharer self.new.sharer }
        ensures pending { self.new.pending ≡ self.old.pending }
        ensures receipts { self.new.receipts ≡ self.old.receipts }
        ensures rests { RestsIn self.old.sharer entry result }
    {
        self.sharer.state_at_rest(entry)
    }
}
