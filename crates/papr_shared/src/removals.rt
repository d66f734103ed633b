//! H_BULK_REMOVE by one pass on the running table, over its four pairs of words; any other count of
//! words is refused.
ghost use Rattle.call_plan.specs.Bulk.{h_bulk_remove_plan};
ghost use Rattle.papr_shared.specs.Answers.{handed};
ghost use Rattle.papr_shared.specs.Calls.{IsCall, IsBulkCall};

use crate::trying::begin;
use c_layout::{PaprReceipt, PaprReply};
use call_plan::bulk_remove_plan;
use shared_pass::PaprPass;
use std::alloc::Global;

/// H_BULK_REMOVE with its four pairs.
fn remove_pairs(
    alloc: Global,
    pass: &mut PaprPass,
    pairs: &[u64; 8],
    words: &mut [u64],
    receipts: &mut [PaprReceipt],
) -> PaprReply
    ensures { IsCall
        (λ order. h_bulk_remove_plan order pairs.now)
        pass.old.pointer.held
        pass.new.pointer.held
        (handed words.old words.new receipts.old receipts.new result) }
{
    let Some(mut working) = pass.take(alloc) else {
        return PaprReply::refused();
    };
    let plan = bulk_remove_plan(working.order(), pairs);
    let reply = begin(&mut working, &plan, words, receipts);
    pass.put(working);
    reply
}

/// H_BULK_REMOVE (LoPAR): takes four pairs of words, each a request to remove an entry and the word
/// of its test. All eight words are given back: a response replaces each request that was taken
/// up.
#[unsafe(no_mangle)]
pub extern "C" fn papr_try_h_bulk_remove(
    alloc: Global,
    pass: &mut PaprPass,
    pairs: &[u64],
    words: &mut [u64],
    receipts: &mut [PaprReceipt],
) -> PaprReply
    ensures { IsBulkCall
        pairs.now
        (λ order. h_bulk_remove_plan order pairs.now)
        pass.old.pointer.held
        pass.new.pointer.held
        (handed words.old words.new receipts.old receipts.new result) }
{
    let Some(pairs) = pairs.as_array() else {
        return PaprReply::refused();
    };
    remove_pairs(alloc, pass, pairs, words, receipts)
}
