//! The types of a plan: a return code alone, one operation on consecutive entries, or the removals
//! of H_BULK_REMOVE.
ghost use Rattle.std.specs.Prelude.{◌+◌, ◌<◌, ◌^◌};

use crate::shown::ShownWords;
use entry_model::{Answer, CallList, Op};
use papr_codes::Rc;

/// What the receipts of a trial tell: the return code and the words. It follows after which answers
/// the trial goes on.
#[derive(Clone, Copy)]
pub enum Told {
    /// Which entry was entered: the first that wasn't taken.
    Entered,
    /// What the one entry answered, and these of its doublewords as they were.
    Answer { shown: ShownWords },
    /// Both doublewords of each entry.
    Contents,
}

/// One operation on consecutive entries.
#[derive(Clone, Copy)]
pub struct Trial {
    /// What is made on each of them.
    pub op: Op,
    /// The index of the first of them.
    pub first: u32,
    /// How many there are at most.
    pub count: u32,
    /// What their receipts tell.
    pub told: Told,
    pub ghost small: { first + count < 2 ^ 32 },
}

/// What a hypervisor call with its arguments is. The value is small, and whoever makes the call may
/// keep it.
#[derive(Clone, Copy)]
pub enum CallPlan<'a> {
    /// It is answered by this code, and touches no entry.
    Code { rc: Rc },
    /// It tries entries with one operation.
    Tries { trial: Trial },
    /// H_BULK_REMOVE: it removes the entries that four pairs of words ask for, of a table of
    /// `2^order` bytes. The pairs stay where its caller has them.
    Removes { order: u8, pairs: &'a [u64; 8] },
}

impl Told {
    ghost use Rattle.std.specs.Prelude.{◌≡◌};
    ghost use Rattle.call_plan.specs.Plans as plans;

    /// Whether the next entry is tried after this answer: H_ENTER looks for an entry that is empty.
    #[inline]
    pub fn goes_on_after(self, answer: Answer) -> bool
        ensures { result ≡ plans.goes_of self answer }
    {
        match self {
            Told::Entered => matches!(answer, Answer::Taken),
            Told::Answer { .. } | Told::Contents => true,
        }
    }
}

impl CallList for Trial {
    ghost use Rattle.call_plan.specs.Plans.{plan_of_trial};

    ghost calls = { λ trial. (plan_of_trial trial).calls };

    ghost goes_on = { λ trial. (plan_of_trial trial).goes_on };

    #[inline(always)]
    fn call_at(&self, made: u32) -> Option<(u32, Op)> {
        if made < self.count {
            Some((self.first + made, self.op))
        } else {
            None
        }
    }

    #[inline(always)]
    fn goes_on_after(&self, answer: Answer) -> bool {
        self.told.goes_on_after(answer)
    }
}
