//! H_ENTER as a plan: its checks of the index, the doublewords and the grants, and then the entries
//! that it tries.
ghost use Rattle.std.specs.Prelude.{◌≡◌, ◌≤◌, ◌<◌, ◌+◌, ℕ, Some};
ghost use Rattle.std.specs.List.{range_with_len};
ghost use Rattle.hpte_fields.specs.TableSize.{IsTableOrder, entry_count, least_order};
ghost use Rattle.hpte_fields.specs.Fields.{normal_words};
ghost use Rattle.call_plan.specs.Checks.{h_enter_plan};
ghost use Rattle.call_plan.specs.Enter as tries;
ghost use Rattle.call_plan.specs.Plans.{plan_of, Fits};

use crate::plan::{CallPlan, Told, Trial};
use entry_model::Op;
use hpte_fields::{GROUP_SIZE, entry_count};
use page_grants::{GrantedMemory, entered_words};
use papr_codes::{CallFlags, Rc};

/// The entries that H_ENTER tries, as the first and their count: under H_EXACT the one that the
/// index names, else the eight of its group.
#[tactic(auto, unfolding(crate::specs::Enter::candidates))]
fn candidates(flags: u64, index: u32) -> (u32, u32)
    ensures entries { range_with_len result.0 result.1
        ≡ tries.candidates flags index }
    ensures some { 1 ≤ result.1 }
    ensures few { result.1 ≤ 8 }
    ensures in_table { (order : ℕ)
        → least_order ≤ order
        → index < entry_count order
        → result.0 + result.1 ≤ entry_count order }
{
    if CallFlags::of(flags).has(CallFlags::EXACT) {
        (index, 1)
    } else {
        (index / GROUP_SIZE * GROUP_SIZE, GROUP_SIZE)
    }
}

/// H_ENTER after its checks: enters two doublewords into the group that `ptex` names, or under
/// H_EXACT into the entry.
#[inline(always)]
#[tactic(auto, unfolding(crate::specs::Enter::candidates))]
pub fn words_plan(order: u8, flags: u64, ptex: u64, dword0: u64, dword1: u64) -> CallPlan<'static>
    requires order { IsTableOrder order }
    requires in_table { ptex < entry_count order }
    requires normal { normal_words dword0 dword1 ≡ Some (dword0, dword1) }
    ensures plan { plan_of result
        ≡ tries.enter_plan flags ptex dword0 dword1 }
    ensures fits { Fits order result }
{
    let (first, count) = candidates(flags, ptex as u32);
    let op = Op::Enter { dword0, dword1 };
    let trial = Trial {
        op,
        first,
        count,
        told: Told::Entered,
    };
    CallPlan::Tries { trial }
}

/// H_ENTER (LoPAR): enters two doublewords into the group that `ptex` names, or under H_EXACT into
/// the entry. H_PARAMETER for an index past the table, for words that can't be stored, and for a
/// page that no single grant holds with these storage control bits.
// In line, so that a caller that makes the call knows its operation.
#[inline(always)]
#[tactic(auto, unfolding(crate::specs::Checks::h_enter_plan))]
pub fn enter_plan<G: GrantedMemory>(
    order: u8,
    grants: &G,
    flags: u64,
    ptex: u64,
    pteh: u64,
    ptel: u64,
) -> CallPlan<'static>
    requires order { IsTableOrder order }
    ensures plan { plan_of result ≡ h_enter_plan order (G.grants grants.now) flags ptex pteh ptel }
    ensures fits { Fits order result }
{
    if ptex >= u64::from(entry_count(order)) {
        return CallPlan::Code { rc: Rc::Parameter };
    }
    let Some((dword0, dword1)) = entered_words(grants, pteh, ptel) else {
        return CallPlan::Code { rc: Rc::Parameter };
    };
    words_plan(order, flags, ptex, dword0, dword1)
}
