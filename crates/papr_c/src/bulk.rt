//! H_BULK_REMOVE on lent entries, over its four pairs of words; any other count of words is
//! refused.
ghost use Rattle.std.specs.Prelude.{◌≡◌};
ghost use Rattle.call_plan.specs.Bulk.{h_bulk_remove_plan};
ghost use Rattle.papr_c.specs.Calls.{memory, outcome_of_bulk};
ghost use Rattle.c_layout.specs.Entries.{states_of, AreMarked};

use crate::running::run_lent;
use c_layout::{PaprEntry, PaprReceipt, PaprReply, is_table};
use call_plan::bulk_remove_plan;

/// H_BULK_REMOVE (LoPAR): takes four pairs of words, each a request to remove an entry and the word
/// of its test. All eight words are given back: a response replaces each request that was taken
/// up.
#[tactic(auto, using(c_layout::proofs::Marks::marked_none))]
#[inline(always)]
#[unsafe(no_mangle)]
pub extern "C" fn papr_h_bulk_remove(
    entries: &mut [PaprEntry],
    order: u8,
    pairs: &[u64],
    words: &mut [u64],
    receipts: &mut [PaprReceipt],
) -> PaprReply
    ensures told { (result, memory (states_of entries.new) words.new receipts.new)
        ≡ outcome_of_bulk
        order
        pairs.now
        (h_bulk_remove_plan order pairs.now)
        (memory (states_of entries.old) words.old receipts.old) }
    ensures marks { AreMarked entries.old entries.new }
{
    if !is_table(entries, order) {
        return PaprReply::refused();
    }
    let Some(pairs) = pairs.as_array() else {
        return PaprReply::refused();
    };
    run_lent(
        entries,
        order,
        &bulk_remove_plan(order, pairs),
        words,
        receipts,
    )
}
