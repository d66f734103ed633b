//! H_ENTER by one pass on the running table, checked against the list of grants.
ghost use Rattle.call_plan.specs.Checks.{h_enter_plan};
ghost use Rattle.c_layout.specs.Grants.{listed};
ghost use Rattle.papr_shared.specs.Answers.{handed};
ghost use Rattle.papr_shared.specs.Calls.{IsCall};

use crate::trying::begin;
use c_layout::{PaprGrants, PaprReceipt, PaprReply};
use call_plan::enter_plan;
use shared_pass::PaprPass;
use std::alloc::Global;

/// H_ENTER (LoPAR): puts the translation of a page into the table. `ptex` names the group, or under
/// H_EXACT the entry, `pteh` and `ptel` are the two doublewords, and `grants` is a list that
/// `papr_make_grants` made. The word is the entry's index.
#[unsafe(no_mangle)]
pub extern "C" fn papr_try_h_enter(
    alloc: Global,
    pass: &mut PaprPass,
    grants: &PaprGrants,
    flags: u64,
    ptex: u64,
    pteh: u64,
    ptel: u64,
    words: &mut [u64],
    receipts: &mut [PaprReceipt],
) -> PaprReply
    ensures { let list = listed grants.now.grants grants.now.count in
        IsCall
        (λ order. h_enter_plan order list flags ptex pteh ptel)
        pass.old.pointer.held
        pass.new.pointer.held
        (handed words.old words.new receipts.old receipts.new result) }
{
    let Some(mut working) = pass.take(alloc) else {
        return PaprReply::refused();
    };
    let plan = enter_plan(working.order(), grants, flags, ptex, pteh, ptel);
    let reply = begin(&mut working, &plan, words, receipts);
    pass.put(working);
    reply
}
