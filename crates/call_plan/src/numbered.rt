//! Which plan each hypervisor call has, and which of registers 4 to 11 are its arguments.
ghost use Rattle.std.specs.Prelude.{◌≡◌};
ghost use Rattle.hpte_fields.specs.TableSize.{IsTableOrder};
ghost use Rattle.call_plan.specs.Hcalls.{entries_plan};
ghost use Rattle.call_plan.specs.Plans.{plan_of, Fits};

use crate::entering::enter_plan;
use crate::plan::CallPlan;
use crate::reading::read_plan;
use crate::removals::bulk_remove_plan;
use crate::single::{clear_mod_plan, clear_ref_plan, protect_plan, remove_plan};
use page_grants::GrantedMemory;
use papr_codes::{Hcall, Rc};

/// The plan of a hypervisor call on the entries of a table of `2^order` bytes, with its words as in
/// registers 4 to 11: H_FUNCTION for any other call.
// In line, so that the plan is made in the caller's frame.
#[inline(always)]
pub fn plan_of_hcall<'a, G: GrantedMemory>(
    order: u8,
    grants: &G,
    hcall: Hcall,
    args: &'a [u64; 8],
) -> CallPlan<'a>
    requires order { IsTableOrder order }
    ensures plan { plan_of result ≡ entries_plan order (G.grants grants.now) hcall args.now }
    ensures fits { Fits order result }
{
    match hcall {
        Hcall::Enter => enter_plan(order, grants, args[0], args[1], args[2], args[3]),
        Hcall::Remove => remove_plan(order, args[0], args[1], args[2]),
        Hcall::Protect => protect_plan(order, args[0], args[1], args[2]),
        Hcall::Read => read_plan(order, args[0], args[1]),
        Hcall::ClearRef => clear_ref_plan(order, args[1]),
        Hcall::ClearMod => clear_mod_plan(order, args[1]),
        Hcall::BulkRemove => bulk_remove_plan(order, args),
        _ => CallPlan::Code { rc: Rc::Function },
    }
}
