//! Calls and walks that are held up, with enough of each to make its operations again.
ghost use Rattle.std.specs.Prelude.{◌≡◌, ◌<◌, ℕ, length};
ghost use Rattle.call_plan.specs.Plans.{plan_of, Fits};
ghost use Rattle.shared_pass.specs.Held.{plan_of_held, HeldFits, is_nothing};

use crate::walk::PageWalk;
use call_plan::{CallPlan, Trial};

/// A hypervisor call that touches entries, with all that its caller needs to go on with it.
#[derive(Clone, Copy)]
pub enum HeldCall {
    /// It tries entries with one operation.
    Tries { trial: Trial },
    /// H_BULK_REMOVE on a table of `2^order` bytes, with its four pairs of words.
    Removes { order: u8, pairs: [u64; 8] },
}

/// What a pass has to go on with.
#[derive(Clone, Copy)]
pub enum Pending {
    /// There is nothing.
    Nothing,
    /// A hypervisor call.
    Call { call: HeldCall },
    /// A walk.
    Walk { walk: PageWalk },
}

impl HeldCall {
    /// The call that a plan is.
    pub fn of(plan: &CallPlan) -> HeldCall
        requires { 0 < length (plan_of plan.now).calls }
        ensures plan { plan_of_held result ≡ plan_of plan.now }
        ensures fits { (order : ℕ) → Fits order plan.now → HeldFits order result }
    {
        match plan {
            CallPlan::Code { .. } => unreachable!(),
            CallPlan::Tries { trial } => HeldCall::Tries { trial: *trial },
            CallPlan::Removes { order, pairs } => HeldCall::Removes {
                order: *order,
                pairs: **pairs,
            },
        }
    }

    /// The plan of the call.
    #[inline]
    pub fn plan<'a>(&'a self) -> CallPlan<'a>
        ensures plan { plan_of result ≡ plan_of_held self.now }
        ensures fits { (order : ℕ) → HeldFits order self.now → Fits order result }
    {
        match self {
            HeldCall::Tries { trial } => CallPlan::Tries { trial: *trial },
            HeldCall::Removes { order, pairs } => CallPlan::Removes {
                order: *order,
                pairs,
            },
        }
    }
}

impl Pending {
    /// Whether there is nothing.
    #[inline]
    pub fn is_nothing(&self) -> bool
        ensures { result ≡ is_nothing self.now }
    {
        matches!(self, Pending::Nothing)
    }
}
