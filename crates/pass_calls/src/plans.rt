//! The plan of a hypervisor call, run on a store whose entries may be busy: the receipts so far say
//! where it goes on.
ghost use Rattle.std.specs.Prelude.{◌≡◌, ◌++◌, IfOk, IfErr, IsOk};
ghost use Rattle.entry_model.specs.Replies.{reply_with};
ghost use Rattle.entry_model.specs.Trial.{IsReplyOf, receipts_added};
ghost use Rattle.entry_model.specs.Begun.{IsBegun};
ghost use Rattle.call_plan.specs.Plans.{plan_of, Fits};
ghost use Rattle.call_plan.specs.Bulk.{h_bulk_remove_plan};
ghost use Rattle.pass_calls.specs.HeldUp.{IsHeldUp};

use crate::tried::TriedStore;
use crate::trying::try_calls;
use call_plan::{CallPlan, Removals, removal_registers, told_registers};
use entry_lock::Busy;
use entry_model::{Receipts, Registers};

/// Makes the rest of H_BULK_REMOVE, of which these receipts were made.
fn try_removals<S: TriedStore>(
    store: &mut S,
    order: u8,
    pairs: &[u64; 8],
    receipts: &mut Receipts,
) -> Result<Registers, Busy>
    requires fits { order ≡ S.table_order store.old }
    requires begun { IsBegun (h_bulk_remove_plan order pairs.now) receipts.old }
    ensures behind { receipts.new ≡ receipts.old ++ receipts_added receipts.old receipts.new }
    ensures made { S.made store.old store.new (receipts_added receipts.old receipts.new) }
    ensures reply { IfOk result (λ registers.
        IsReplyOf (h_bulk_remove_plan order pairs.now) (reply_with registers receipts.new)) }
    ensures begun { IfErr result
        (λ busy. IsBegun (h_bulk_remove_plan order pairs.now) receipts.new) }
    ensures next { IfErr result
        (λ busy. IsHeldUp (h_bulk_remove_plan order pairs.now) receipts.new busy) }
    ensures told { IfErr result (λ busy. S.told store.old store.new busy.entry busy) }
    ensures alone { S.alone store.old → IsOk result }
{
    let _order = store.order();
    let removals = Removals { order, pairs };
    let _ending = try_calls(store, &removals, receipts)?;
    Ok(removal_registers(order, pairs, receipts.as_slice()))
}

/// Makes the rest of a hypervisor call of which these receipts were made: none at first. The new
/// ones are put after them. At the end the reply is the one of the whole call.
///
/// # Errors
/// Busy where somebody else was at the next entry. The same plan with the receipts as they are then
/// goes on from there.
#[inline(always)]
pub fn try_plan<S: TriedStore>(
    store: &mut S,
    plan: &CallPlan,
    receipts: &mut Receipts,
) -> Result<Registers, Busy>
    requires fits { Fits (S.table_order store.old) plan.now }
    requires begun { IsBegun (plan_of plan.now) receipts.old }
    ensures behind { receipts.new ≡ receipts.old ++ receipts_added receipts.old receipts.new }
    ensures made { S.made store.old store.new (receipts_added receipts.old receipts.new) }
    ensures reply { IfOk result
        (λ registers. IsReplyOf (plan_of plan.now) (reply_with registers receipts.new)) }
    ensures begun { IfErr result (λ busy. IsBegun (plan_of plan.now) receipts.new) }
    ensures next { IfErr result (λ busy. IsHeldUp (plan_of plan.now) receipts.new busy) }
    ensures told { IfErr result (λ busy. S.told store.old store.new busy.entry busy) }
    ensures alone { S.alone store.old → IsOk result }
{
    match plan {
        CallPlan::Code { rc } => Ok(Registers::with_code(*rc)),
        CallPlan::Tries { trial } => {
            let ending = try_calls(store, trial, receipts)?;
            Ok(told_registers(trial.told, &ending, receipts.as_slice()))
        }
        CallPlan::Removes { order, pairs } => try_removals(store, *order, pairs, receipts),
    }
}
