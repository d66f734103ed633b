//! H_REMOVE, H_PROTECT, H_READ, H_CLEAR_REF and H_CLEAR_MOD by one pass on the running table.
ghost use Rattle.call_plan.specs.Single as single;
ghost use Rattle.papr_shared.specs.Answers.{handed};
ghost use Rattle.papr_shared.specs.Calls.{IsCall};

use crate::trying::begin;
use c_layout::{PaprReceipt, PaprReply};
use call_plan::{clear_mod_plan, clear_ref_plan, protect_plan, read_plan, remove_plan};
use shared_pass::PaprPass;
use std::alloc::Global;

/// H_REMOVE (LoPAR): empties the entry `ptex` where it passes the test that `flags` ask for, by
/// `avpn`. The words are its two doublewords before.
#[unsafe(no_mangle)]
pub extern "C" fn papr_try_h_remove(
    alloc: Global,
    pass: &mut PaprPass,
    flags: u64,
    ptex: u64,
    avpn: u64,
    words: &mut [u64],
    receipts: &mut [PaprReceipt],
) -> PaprReply
    ensures { IsCall
        (λ order. single.h_remove_plan order flags ptex avpn)
        pass.old.pointer.held
        pass.new.pointer.held
        (handed words.old words.new receipts.old receipts.new result) }
{
    let Some(mut working) = pass.take(alloc) else {
        return PaprReply::refused();
    };
    let plan = remove_plan(working.order(), flags, ptex, avpn);
    let reply = begin(&mut working, &plan, words, receipts);
    pass.put(working);
    reply
}

/// H_PROTECT (LoPAR): gives the entry `ptex` the protection in `flags`, where it passes the test by
/// `avpn` that they ask for. There are no words.
#[unsafe(no_mangle)]
pub extern "C" fn papr_try_h_protect(
    alloc: Global,
    pass: &mut PaprPass,
    flags: u64,
    ptex: u64,
    avpn: u64,
    words: &mut [u64],
    receipts: &mut [PaprReceipt],
) -> PaprReply
    ensures { IsCall
        (λ order. single.h_protect_plan order flags ptex avpn)
        pass.old.pointer.held
        pass.new.pointer.held
        (handed words.old words.new receipts.old receipts.new result) }
{
    let Some(mut working) = pass.take(alloc) else {
        return PaprReply::refused();
    };
    let plan = protect_plan(working.order(), flags, ptex, avpn);
    let reply = begin(&mut working, &plan, words, receipts);
    pass.put(working);
    reply
}

/// H_READ (LoPAR): the words are the two doublewords of the entry `ptex`, or under H_READ_4 those
/// of the four entries that it lies among.
#[unsafe(no_mangle)]
pub extern "C" fn papr_try_h_read(
    alloc: Global,
    pass: &mut PaprPass,
    flags: u64,
    ptex: u64,
    words: &mut [u64],
    receipts: &mut [PaprReceipt],
) -> PaprReply
    ensures { IsCall
        (λ order. single.h_read_plan order flags ptex)
        pass.old.pointer.held
        pass.new.pointer.held
        (handed words.old words.new receipts.old receipts.new result) }
{
    let Some(mut working) = pass.take(alloc) else {
        return PaprReply::refused();
    };
    let plan = read_plan(working.order(), flags, ptex);
    let reply = begin(&mut working, &plan, words, receipts);
    pass.put(working);
    reply
}

/// H_CLEAR_REF (LoPAR): clears R of the entry `ptex`. The word is its doubleword 1 before. `flags`
/// are ignored.
#[unsafe(no_mangle)]
pub extern "C" fn papr_try_h_clear_ref(
    alloc: Global,
    pass: &mut PaprPass,
    _flags: u64,
    ptex: u64,
    words: &mut [u64],
    receipts: &mut [PaprReceipt],
) -> PaprReply
    ensures { IsCall
        (λ order. single.h_clear_ref_plan order ptex)
        pass.old.pointer.held
        pass.new.pointer.held
        (handed words.old words.new receipts.old receipts.new result) }
{
    let Some(mut working) = pass.take(alloc) else {
        return PaprReply::refused();
    };
    let plan = clear_ref_plan(working.order(), ptex);
    let reply = begin(&mut working, &plan, words, receipts);
    pass.put(working);
    reply
}

/// H_CLEAR_MOD (LoPAR): clears C of the entry `ptex`. The word is its doubleword 1 before. `flags`
/// are ignored.
#[unsafe(no_mangle)]
pub extern "C" fn papr_try_h_clear_mod(
    alloc: Global,
    pass: &mut PaprPass,
    _flags: u64,
    ptex: u64,
    words: &mut [u64],
    receipts: &mut [PaprReceipt],
) -> PaprReply
    ensures { IsCall
        (λ order. single.h_clear_mod_plan order ptex)
        pass.old.pointer.held
        pass.new.pointer.held
        (handed words.old words.new receipts.old receipts.new result) }
{
    let Some(mut working) = pass.take(alloc) else {
        return PaprReply::refused();
    };
    let plan = clear_mod_plan(working.order(), ptex);
    let reply = begin(&mut working, &plan, words, receipts);
    pass.put(working);
    reply
}
