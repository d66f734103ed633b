//! H_READ as a plan: of the named entry, or under H_READ_4 of the aligned four that it is among.
ghost use Rattle.std.specs.Prelude.{◌≡◌, ◌≤◌, ◌<◌, ◌+◌, ℕ};
ghost use Rattle.std.specs.List.{range_with_len};
ghost use Rattle.hpte_fields.specs.TableSize as table;
ghost use Rattle.call_plan.specs.Plans.{plan_of, Fits};
ghost use Rattle.call_plan.specs.Single.{h_read_plan};

use crate::plan::{CallPlan, Told, Trial};
use entry_model::Op;
use hpte_fields::entry_count;
use papr_codes::{CallFlags, Rc};

/// The entries that H_READ reads, as the first and their count: the one that the index names, and
/// under H_READ_4 the four that it lies among.
fn read_range(flags: u64, index: u32) -> (u32, u32)
    ensures entries { range_with_len result.0 result.1
        ≡ Rattle.call_plan.specs.Single.read_entries flags index }
    ensures some { 1 ≤ result.1 }
    ensures few { result.1 ≤ 4 }
    ensures in_table { (order : ℕ)
        → table.least_order ≤ order
        → index < table.entry_count order
        → result.0 + result.1 ≤ table.entry_count order }
{
    if CallFlags::of(flags).has(CallFlags::READ_4) {
        (index / 4 * 4, 4)
    } else {
        (index, 1)
    }
}

/// H_READ (LoPAR): reads the entry, or under H_READ_4 the four that it lies among.
#[inline]
#[tactic(auto, unfolding(crate::specs::Single::h_read_plan))]
pub fn read_plan(order: u8, flags: u64, ptex: u64) -> CallPlan<'static>
    requires order { table.IsTableOrder order }
    ensures plan { plan_of result ≡ h_read_plan order flags ptex }
    ensures fits { Fits order result }
{
    if ptex >= u64::from(entry_count(order)) {
        return CallPlan::Code { rc: Rc::Parameter };
    }
    let (first, count) = read_range(flags, ptex as u32);
    let trial = Trial {
        op: Op::Read,
        first,
        count,
        told: Told::Contents,
    };
    CallPlan::Tries { trial }
}
