//! H_READ on lent entries, and both doublewords of entries put into the caller's slots.
ghost use Rattle.std.specs.Prelude.{◌≡◌, ◌≤◌, ◌+◌, ◌*◌, ◌^◌, ◌<◌, length, min};
ghost use Rattle.call_plan.specs.Single.{h_read_plan};
ghost use Rattle.papr_c.specs.Calls.{memory, outcome_of_call};
ghost use Rattle.c_layout.specs.Slots.{placed};
ghost use Rattle.papr_c.specs.Tried.{words_of_entries};
ghost use Rattle.c_layout.specs.Entries.{states_of, AreMarked};

use crate::running::run_lent;
use c_layout::{PaprEntry, PaprReceipt, PaprReply, filled_count, is_table, put_word};
use call_plan::read_plan;
use hpt_resize::StateHolder;

/// Puts both doublewords of each of these entries into the caller's slots, as far as these go, and
/// gives how many it put.
pub fn put_doublewords(entries: &[PaprEntry], first: u32, count: u32, slots: &mut [u64]) -> u32
    requires few { count ≤ 4 }
    requires in_table { first + count ≤ length (states_of entries.now) }
    requires small { first + count < 2 ^ 32 }
    ensures put { slots.new
        ≡ placed slots.old 0 (words_of_entries (states_of entries.now) first count) }
    ensures count { result ≡ min (length slots.old) (2 * count) }
{
    for i in 0..count {
        let (dword0, dword1) = entries[(first + i) as usize].state().words();
        put_word(dword0, slots, 2 * i as usize);
        put_word(dword1, slots, 2 * i as usize + 1);
    }
    filled_count(slots.len(), 2 * count)
}

/// H_READ (LoPAR): the words are the two doublewords of the entry `ptex`, or under H_READ_4 those
/// of the four entries that it lies among.
#[tactic(auto, using(c_layout::proofs::Marks::marked_none))]
#[inline(always)]
#[unsafe(no_mangle)]
pub extern "C" fn papr_h_read(
    entries: &mut [PaprEntry],
    order: u8,
    flags: u64,
    ptex: u64,
    words: &mut [u64],
    receipts: &mut [PaprReceipt],
) -> PaprReply
    ensures told { (result, memory (states_of entries.new) words.new receipts.new)
        ≡ outcome_of_call
        order
        (h_read_plan order flags ptex)
        (memory (states_of entries.old) words.old receipts.old) }
    ensures marks { AreMarked entries.old entries.new }
{
    if !is_table(entries, order) {
        return PaprReply::refused();
    }
    let plan = read_plan(order, flags, ptex);
    run_lent(entries, order, &plan, words, receipts)
}
