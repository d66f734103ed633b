//! One try of a hypervisor call for C: at its end its reply is handed over, and where an entry is
//! busy H_BUSY with the words so far.
ghost use Rattle.std.specs.Arc.{arc_value};
ghost use Rattle.call_plan.specs.Plans.{plan_of, Fits};
ghost use Rattle.papr_shared.specs.Answers.{handed};
ghost use Rattle.papr_shared.specs.Calls.{IsCallBy, IsAgainBy, NeverBusy};

use crate::handing::hand_over_call;
use c_layout::{PaprReceipt, PaprReply};
use call_plan::CallPlan;
use shared_pass::{Pending, Working};

/// Makes a call, if the pass has nothing to go on with.
#[inline(always)]
pub fn begin(
    working: &mut Working,
    plan: &CallPlan,
    words: &mut [u64],
    receipts: &mut [PaprReceipt],
) -> PaprReply
    requires fits { Fits (arc_value working.old.sharer.table).order plan.now }
    requires never_busy { NeverBusy (plan_of plan.now) }
    ensures { IsCallBy
        working.old.pending
        (plan_of plan.now)
        working.old
        working.new
        (handed words.old words.new receipts.old receipts.new result) }
{
    if !working.is_free() {
        return PaprReply::refused();
    }
    match working.begin(plan) {
        Ok(registers) => hand_over_call(working, &registers, words, receipts),
        Err(_) => {
            let so_far = working.registers_so_far();
            hand_over_call(working, &so_far, words, receipts)
        }
    }
}

/// Goes on with a call, if the pass has one.
pub fn go_on(working: &mut Working, words: &mut [u64], receipts: &mut [PaprReceipt]) -> PaprReply
    ensures { IsAgainBy
        working.old.pending
        working.old
        working.new
        (handed words.old words.new receipts.old receipts.new result) }
{
    let Pending::Call { call } = working.pending else {
        return PaprReply::refused();
    };
    match working.again(call) {
        Ok(registers) => hand_over_call(working, &registers, words, receipts),
        Err(_) => {
            let so_far = working.registers_so_far();
            hand_over_call(working, &so_far, words, receipts)
        }
    }
}
