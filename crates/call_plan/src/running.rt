//! How a plan is run on any store of entries: its operations, and then the registers of the reply
//! from their receipts.
ghost use Rattle.entry_model.specs.Replies.{reply_with};
ghost use Rattle.entry_model.specs.Trial.{IsReplyOf};
ghost use Rattle.call_plan.specs.Bulk.{h_bulk_remove_plan};
ghost use Rattle.call_plan.specs.Plans.{plan_of, plan_of_trial, Fits, IsTrialIn};

use crate::bulk::removal_registers;
use crate::plan::{CallPlan, Trial};
use crate::removals::Removals;
use crate::telling::told_registers;
use entry_model::{EntryStore, HReply, Receipts, Registers, make_trial};

/// Tries entries of a store with one operation.
#[inline]
fn run_trial<T: EntryStore>(store: &mut T, trial: &Trial, receipts: &mut Receipts) -> Registers
    requires fits { IsTrialIn (T.table_order store.old) trial.now }
    ensures made { T.made store.old store.new receipts.new }
    ensures reply { IsReplyOf (plan_of_trial trial.now) (reply_with result receipts.new) }
{
    let ending = make_trial(store, trial, receipts);
    told_registers(trial.told, &ending, receipts.as_slice())
}

/// Makes the removals of H_BULK_REMOVE.
fn run_removals<T: EntryStore>(
    store: &mut T,
    pairs: &[u64; 8],
    receipts: &mut Receipts,
) -> Registers
    ensures made { T.made store.old store.new receipts.new }
    ensures reply { IsReplyOf
        (h_bulk_remove_plan (T.table_order store.old) pairs.now)
        (reply_with result receipts.new) }
{
    let order = store.order();
    let removals = Removals { order, pairs };
    let _ending = make_trial(store, &removals, receipts);
    removal_registers(order, pairs, receipts.as_slice())
}

/// Makes a call on the entries of a store. Its receipts replace what is in `receipts`.
pub fn run_plan<T: EntryStore>(store: &mut T, plan: &CallPlan, receipts: &mut Receipts) -> Registers
    requires { Fits (T.table_order store.old) plan.now }
    ensures made { T.made store.old store.new receipts.new }
    ensures reply { IsReplyOf (plan_of plan.now) (reply_with result receipts.new) }
{
    match plan {
        CallPlan::Code { rc } => {
            receipts.clear();
            Registers::with_code(*rc)
        }
        CallPlan::Tries { trial } => run_trial(store, trial, receipts),
        CallPlan::Removes { order: _, pairs } => run_removals(store, pairs, receipts),
    }
}

/// Makes a call on the entries of a store, and gives its whole reply.
pub fn reply_plan<T: EntryStore>(store: &mut T, plan: &CallPlan) -> HReply
    requires { Fits (T.table_order store.old) plan.now }
    ensures made { T.made store.old store.new result.receipts }
    ensures reply { IsReplyOf (plan_of plan.now) result }
{
    let mut receipts = Receipts::new();
    let registers = run_plan(store, plan, &mut receipts);
    registers.into_reply(receipts)
}
