//! H_BULK_REMOVE as a plan: its pairs as a list of removals, up to the first that asks for none or
//! whose entry is at its last stamp.
ghost use Rattle.std.specs.Prelude.{◌≡◌, length};
ghost use Rattle.hpte_fields.specs.TableSize.{IsTableOrder};
ghost use Rattle.call_plan.specs.Bulk.{h_bulk_remove_plan};
ghost use Rattle.call_plan.specs.Plans.{plan_of, Fits};

use crate::bulk::{Asked, asked_by};
use crate::plan::CallPlan;
use entry_model::{Answer, CallList, Op};

/// The removals of H_BULK_REMOVE: what four pairs of words ask of a table of `2^order` bytes, up to
/// the first pair that asks for none.
#[derive(Clone, Copy)]
pub struct Removals<'a> {
    /// The binary logarithm of the table's size in bytes.
    pub order: u8,
    /// The pairs.
    pub pairs: &'a [u64; 8],
    pub ghost order_fits: { IsTableOrder order },
    pub ghost whole: { length pairs.now ≡ 8 },
}

impl<'a> CallList for Removals<'a> {
    ghost use Rattle.call_plan.specs.Bulk.{h_bulk_remove_plan};

    ghost calls = { λ r. (h_bulk_remove_plan r.order r.pairs.now).calls };

    ghost goes_on = { λ r. (h_bulk_remove_plan r.order r.pairs.now).goes_on };

    fn call_at(&self, made: u32) -> Option<(u32, Op)> {
        if made >= 4 {
            return None;
        }
        let i = made as usize;
        match asked_by(self.order, self.pairs[2 * i], self.pairs[2 * i + 1]) {
            Asked::Remove { entry, test } => Some((entry, Op::Remove { test })),
            Asked::End => None,
            Asked::Refused => None,
        }
    }

    #[inline]
    #[tactic(auto, unfolding(crate::specs::Bulk::h_bulk_remove_plan))]
    fn goes_on_after(&self, answer: Answer) -> bool {
        !matches!(answer, Answer::Worn)
    }
}

/// H_BULK_REMOVE (LoPAR): removes the entries that four pairs of words ask for.
#[inline]
pub fn bulk_remove_plan<'a>(order: u8, pairs: &'a [u64; 8]) -> CallPlan<'a>
    ensures plan { plan_of result ≡ h_bulk_remove_plan order pairs.now }
    ensures fits { Fits order result }
{
    CallPlan::Removes { order, pairs }
}
