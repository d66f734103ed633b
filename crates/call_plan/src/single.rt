//! The plans of the calls that change one entry: H_REMOVE, H_PROTECT, H_CLEAR_REF and H_CLEAR_MOD.
ghost use Rattle.std.specs.Prelude.{◌≡◌};
ghost use Rattle.hpte_fields.specs.TableSize.{IsTableOrder};
ghost use Rattle.entry_model.specs.Receipt.{IsNormal};
ghost use Rattle.call_plan.specs.Plans.{plan_of, Fits};
ghost use Rattle.call_plan.specs.ShownWords.{words_shown};
ghost use Rattle.call_plan.specs.Single as single;

use crate::plan::{CallPlan, Told, Trial};
use crate::shown::ShownWords;
use entry_model::{Op, Test};
use hpte_fields::entry_count;
use papr_codes::{CallFlags, Rc};

/// The word, where the call has the flag.
fn where_flag(flags: CallFlags, flag: CallFlags, word: u64) -> Option<u64>
    ensures { result ≡ single.where_flag flags.0 flag.0 word }
{
    flags.has(flag).then_some(word)
}

/// The test of H_REMOVE.
fn remove_test(flags: u64, avpn: u64) -> Test
    ensures { result ≡ single.remove_test flags avpn }
{
    let known = CallFlags::of(flags);
    Test {
        avpn: where_flag(known, CallFlags::AVPN, avpn),
        andcond: where_flag(known, CallFlags::AND_COND, avpn),
    }
}

/// The test of H_PROTECT.
fn protect_test(flags: u64, avpn: u64) -> Test
    ensures { result ≡ single.protect_test flags avpn }
{
    Test {
        avpn: where_flag(CallFlags::of(flags), CallFlags::AVPN, avpn),
        andcond: None,
    }
}

/// A call on the entry that the index names. H_PARAMETER for an index past the table.
#[inline]
fn single_plan(order: u8, ptex: u64, op: Op, shown: ShownWords) -> CallPlan<'static>
    requires order { IsTableOrder order }
    requires normal { IsNormal op }
    ensures plan { plan_of result ≡ single.single_plan order ptex op (words_shown shown) }
    ensures fits { Fits order result }
{
    if ptex >= u64::from(entry_count(order)) {
        return CallPlan::Code { rc: Rc::Parameter };
    }
    let trial = Trial {
        op,
        first: ptex as u32,
        count: 1,
        told: Told::Answer { shown },
    };
    CallPlan::Tries { trial }
}

/// H_REMOVE (LoPAR): empties the entry, under the tests that `flags` ask for.
#[inline]
#[tactic(auto, unfolding(crate::specs::Single::h_remove_plan))]
pub fn remove_plan(order: u8, flags: u64, ptex: u64, avpn: u64) -> CallPlan<'static>
    requires order { IsTableOrder order }
    ensures plan { plan_of result ≡ single.h_remove_plan order flags ptex avpn }
    ensures fits { Fits order result }
{
    let test = remove_test(flags, avpn);
    single_plan(order, ptex, Op::Remove { test }, ShownWords::Both)
}

/// H_PROTECT (LoPAR): gives the entry the protection in `flags`, under the test that they ask for.
#[inline]
#[tactic(auto, unfolding(crate::specs::Single::h_protect_plan))]
pub fn protect_plan(order: u8, flags: u64, ptex: u64, avpn: u64) -> CallPlan<'static>
    requires order { IsTableOrder order }
    ensures plan { plan_of result ≡ single.h_protect_plan order flags ptex avpn }
    ensures fits { Fits order result }
{
    let test = protect_test(flags, avpn);
    single_plan(
        order,
        ptex,
        Op::Protect { test, flags },
        ShownWords::Neither,
    )
}

/// H_CLEAR_REF (LoPAR): clears R of the entry.
#[inline]
#[tactic(auto, unfolding(crate::specs::Single::h_clear_ref_plan))]
pub fn clear_ref_plan(order: u8, ptex: u64) -> CallPlan<'static>
    requires order { IsTableOrder order }
    ensures plan { plan_of result ≡ single.h_clear_ref_plan order ptex }
    ensures fits { Fits order result }
{
    single_plan(order, ptex, Op::ClearRef, ShownWords::Second)
}

/// H_CLEAR_MOD (LoPAR): clears C of the entry.
#[inline]
#[tactic(auto, unfolding(crate::specs::Single::h_clear_mod_plan))]
pub fn clear_mod_plan(order: u8, ptex: u64) -> CallPlan<'static>
    requires order { IsTableOrder order }
    ensures plan { plan_of result ≡ single.h_clear_mod_plan order ptex }
    ensures fits { Fits order result }
{
    single_plan(order, ptex, Op::ClearMod, ShownWords::Second)
}
