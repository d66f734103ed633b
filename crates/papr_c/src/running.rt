//! How the plan of a hypervisor call is run on lent entries: a code alone, a trial or removals,
//! with their words and receipts in the caller's slots.
ghost use Rattle.std.specs.Prelude.{◌≡◌, true};
ghost use Rattle.call_plan.specs.Plans as plans;
ghost use Rattle.papr_c.specs.Calls.{memory, outcome_of_call};
ghost use Rattle.c_layout.specs.Tables.{is_table};
ghost use Rattle.c_layout.specs.Entries.{states_of, AreMarked};

use crate::read::put_doublewords;
use crate::removals::remove_pairs;
use crate::trying::{make, try_lent};
use c_layout::{PaprEntry, PaprReceipt, PaprReply, ends_stale, filled_count, hand_over, is_stale};
use call_plan::{CallPlan, Told, Trial, answered_registers, entered_registers};
use papr_codes::Rc;

/// Tries entries that are lent, and hands over what their receipts tell.
// In line, so that each caller has the part of `reply` that its operation needs, and no other.
#[inline(always)]
fn try_trial(
    entries: &mut [PaprEntry],
    order: u8,
    trial: &Trial,
    words: &mut [u64],
    receipts: &mut [PaprReceipt],
) -> PaprReply
    requires table { is_table order (states_of entries.old) ≡ true }
    requires fits { plans.IsTrialIn order trial.now }
    ensures told { (result, memory (states_of entries.new) words.new receipts.new)
        ≡ outcome_of_call
        order
        (plans.plan_of_trial trial.now)
        (memory (states_of entries.old) words.old receipts.old) }
    ensures marks { AreMarked entries.old entries.new }
{
    let room = receipts.len();
    match trial.told {
        Told::Entered => {
            let tried = try_lent(entries, trial, receipts);
            let stale = ends_stale(&tried.ending);
            hand_over(
                &entered_registers(&tried.ending),
                tried.count,
                stale,
                words,
                room,
            )
        }
        Told::Answer { shown } => {
            let receipt = make(entries, &trial.op, trial.first, receipts, 0);
            let stale = is_stale(receipt.answer);
            hand_over(&answered_registers(&receipt, shown), 1, stale, words, room)
        }
        Told::Contents => {
            let tried = try_lent(entries, trial, receipts);
            let shown = put_doublewords(entries, trial.first, trial.count, words);
            PaprReply::answered(Rc::Success, shown, filled_count(room, tried.count), false)
        }
    }
}

/// Makes a call on entries that are lent, and hands over what its receipts tell.
#[inline(always)]
pub fn run_lent(
    entries: &mut [PaprEntry],
    order: u8,
    plan: &CallPlan,
    words: &mut [u64],
    receipts: &mut [PaprReceipt],
) -> PaprReply
    requires table { is_table order (states_of entries.old) ≡ true }
    requires fits { plans.Fits order plan.now }
    ensures told { (result, memory (states_of entries.new) words.new receipts.new)
        ≡ outcome_of_call
        order
        (plans.plan_of plan.now)
        (memory (states_of entries.old) words.old receipts.old) }
    ensures marks { AreMarked entries.old entries.new }
{
    match plan {
        CallPlan::Code { rc } => PaprReply::answered(*rc, 0, 0, false),
        CallPlan::Tries { trial } => try_trial(entries, order, trial, words, receipts),
        CallPlan::Removes { order: _, pairs } => {
            remove_pairs(entries, order, pairs, words, receipts)
        }
    }
}
