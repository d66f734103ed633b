//! A hypervisor call on a table whose entries may be busy, made again while it is held up.
ghost use Rattle.std.specs.Prelude.{IfSome};
ghost use Rattle.entry_model.specs.Trial.{IsReplyOf};
ghost use Rattle.call_plan.specs.Plans.{plan_of, Fits};

use call_plan::CallPlan;
use entry_model::{HReply, Receipts};
use pass_calls::{TriedStore, try_plan};

/// The reply of a hypervisor call in at most so many tries, each of which goes on where the one
/// before was held up. `None` where it is still held up then.
pub fn call_within<S: TriedStore>(store: &mut S, plan: &CallPlan, tries: u32) -> Option<HReply>
    requires { Fits (S.table_order store.old) plan.now }
    ensures { IfSome result (λ reply. IsReplyOf (plan_of plan.now) reply) }
{
    let mut receipts = Receipts::new();
    for _ in 0..tries {
        if let Ok(registers) = try_plan(store, plan, &mut receipts) {
            return Some(registers.into_reply(receipts));
        }
    }
    None
}
