//! H_RESIZE_HPT_PREPARE and H_RESIZE_HPT_COMMIT over memory that the caller lends for the new
//! table, and what is pending between them.
ghost use Rattle.std.specs.Prelude.{◌≡◌, ◌≤◌, ◌+◌, min, Some, None, length, MatchResult, IfOk, OnOk};
ghost use Rattle.hpte_fields.specs.TableSize.{IsTableOrder, entry_count};
ghost use Rattle.hpt_resize.specs.Resize.{commit_refusal};
ghost use Rattle.papr_c.specs.Resizing.{resize_memory, nothing_pending, pending_of, is_pending_table, table_of_order, emptied, prepared, outcome_of_resize_prepare, outcome_of_resize_commit, committed_entries};
ghost use Rattle.c_layout.specs.Entries.{states_of, AreMarked};

use crate::rehashing::{PaprRehash, carry, clear};
use c_layout::{PaprEntry, is_table};
use hpt_resize::{READY_A_CALL, is_prepare_request};
use hpte_fields::{GREATEST_ORDER, entry_count, is_architected_order, is_table_order};
use papr_codes::Rc;

/// What is pending between two resize calls. All zero is nothing; the calls write it.
#[repr(C)]
#[derive(Clone, Copy)]
pub struct PaprResize {
    /// How many entries of the pending table are ready, from the first on.
    pub ready: u32,
    /// The pending table has `2^order` bytes.
    pub order: u8,
    /// Whether a table is pending.
    pub pending: bool,
}

impl PaprResize {
    /// Nothing is pending.
    const NOTHING: PaprResize = PaprResize {
        ready: 0,
        order: 0,
        pending: false,
    };

    /// Whether a table is pending: its order is one of a table, and it has as many entries as are
    /// ready. The calls leave no other pending table, and one from elsewhere counts as none.
    fn is_pending_table(&self) -> bool
        ensures { result ≡ is_pending_table self.now }
    {
        self.pending && (is_table_order(self.order) && self.ready <= entry_count(self.order))
    }

    /// How many entries of the pending table of this order are ready: none where another is
    /// pending, or none is.
    fn ready_of(&self, order: u8) -> usize
        requires order { IsTableOrder order }
        ensures value { result ≡ (table_of_order order (pending_of self.now)).ready }
        ensures few { result ≤ entry_count order }
    {
        if self.is_pending_table() && self.order == order {
            self.ready as usize
        } else {
            0
        }
    }

    /// Why no table of this order can be committed.
    #[tactic(auto, unfolding(hpt_resize::specs::Resize::pending_refusal))]
    fn refusal(&self, flags: u64, shift: u64) -> Result<u8, Rc>
        ensures told { MatchResult
            result
            (λ _. commit_refusal flags shift (pending_of self.now) ≡ None)
            (λ rc. commit_refusal flags shift (pending_of self.now) ≡ Some rc) }
        ensures order { IfOk result (λ order. order ≡ shift) }
        ensures fits { OnOk result (IsTableOrder shift) }
    {
        if flags != 0 || !is_architected_order(shift) {
            return Err(Rc::Parameter);
        }
        if !self.is_pending_table() || u64::from(self.order) != shift {
            return Err(Rc::Closed);
        }
        if self.ready != entry_count(self.order) {
            return Err(Rc::Busy);
        }
        Ok(self.order)
    }
}

/// Makes the next entries of a table of `2^order` bytes ready, of which the first are so already,
/// and says how many are then.
#[tactic(auto, using(c_layout::proofs::Marks::marked_none))]
fn advance(ready: usize, order: u8, into: &mut [PaprEntry]) -> usize
    requires order { IsTableOrder order }
    requires few { ready ≤ entry_count order }
    requires whole { length (states_of into.old) ≡ entry_count order }
    ensures ready { result ≡ min (ready + 16384) (entry_count order) }
    ensures into { states_of into.new ≡ emptied ready result (states_of into.old) }
    ensures marks { AreMarked into.old into.new }
{
    let end = into.len().min(ready + READY_A_CALL);
    clear(into, ready, end);
    end
}

/// H_RESIZE_HPT_PREPARE: makes a table of `2^shift` bytes ready in the memory that is lent, a part
/// at each call. `limit` is the highest order that the guest may ask for.
#[tactic(auto, using(c_layout::proofs::Marks::marked_none), unfolding(crate::specs::Resizing::outcome_of_resize_prepare))]
#[unsafe(no_mangle)]
pub extern "C" fn papr_resize_prepare(
    resize: &mut PaprResize,
    limit: u8,
    flags: u64,
    shift: u64,
    into: &mut [PaprEntry],
) -> i64
    ensures told { (result, resize_memory resize.new (states_of into.new))
        ≡ outcome_of_resize_prepare
        limit
        flags
        shift
        (resize_memory resize.old (states_of into.old)) }
    ensures marks { AreMarked into.old into.new }
{
    if !is_prepare_request(flags, shift) {
        return Rc::Parameter.code();
    }
    if shift > u64::from(limit.min(GREATEST_ORDER)) {
        return Rc::Resource.code();
    }
    if shift == 0 {
        *resize = PaprResize::NOTHING;
        return Rc::Success.code();
    }
    let order = shift as u8;
    if into.len() != entry_count(order) as usize {
        *resize = PaprResize::NOTHING;
        return Rc::NoMem.code();
    }
    let ready = advance(resize.ready_of(order), order, into);
    *resize = PaprResize {
        ready: ready as u32,
        order,
        pending: true,
    };
    if ready == into.len() {
        Rc::Success.code()
    } else {
        Rc::LongBusy.code()
    }
}

/// H_RESIZE_HPT_COMMIT: carries the bolted entries of the current table over into the memory of the
/// pending one of `2^shift` bytes, as `papr_rehash` does. Its caller makes that the current table.
#[tactic(auto, unfolding(crate::specs::Resizing::outcome_of_resize_commit))]
#[unsafe(no_mangle)]
pub extern "C" fn papr_resize_commit(
    resize: &mut PaprResize,
    entries: &[PaprEntry],
    order: u8,
    into: &mut [PaprEntry],
    flags: u64,
    shift: u64,
) -> PaprRehash
    ensures told { (result, resize_memory resize.new (states_of into.new))
        ≡ outcome_of_resize_commit
        order
        (states_of entries.now)
        flags
        shift
        (resize_memory resize.old (states_of into.old)) }
    ensures marks { into.new
        ≡ committed_entries order (states_of entries.now) flags shift resize.old into.old }
{
    if !is_table(entries, order) {
        return PaprRehash::refused(Rc::Parameter);
    }
    let into_order = match resize.refusal(flags, shift) {
        Ok(order) => order,
        Err(rc) => return PaprRehash::refused(rc),
    };
    if into.len() != entry_count(into_order) as usize {
        return PaprRehash::refused(Rc::Parameter);
    }
    *resize = PaprResize::NOTHING;
    carry(entries, order, into, into_order)
}
