//! What a call that is held up gives with H_BUSY: the words of the receipts that it has.
ghost use Rattle.hpte_fields.specs.TableSize.{IsTableOrder};
ghost use Rattle.std.specs.Prelude.{◌≡◌};
ghost use Rattle.entry_model.specs.Begun.{IsBegun};
ghost use Rattle.call_plan.specs.Plans.{plan_of_trial, IsTrialIn};
ghost use Rattle.papr_codes.specs.declared.codes.Rc.TheVariants.{Busy};
ghost use Rattle.shared_pass.specs.declared.held.HeldCall.{HeldCall as Held};
ghost use Rattle.shared_pass.specs.declared.held.Pending.TheVariants.{Call};
ghost use Rattle.shared_pass.specs.Held.{plan_of_held, HeldFits};

use crate::held::{HeldCall, Pending};
use crate::working::Working;
use call_plan::{Trial, removal_registers, told_registers};
use entry_model::{Receipt, Registers, ReplyWords};
use papr_codes::Rc;

/// The words of a trial that these receipts begin.
fn trial_words(order: u8, trial: &Trial, receipts: &[Receipt]) -> ReplyWords
    requires fits { IsTrialIn order trial.now }
    requires begun { IsBegun (plan_of_trial trial.now) receipts.now }
    ensures { result ≡ ((plan_of_trial trial.now).told receipts.now).1 }
{
    if receipts.is_empty() {
        return ReplyWords::new();
    }
    let Registers { rc: _, words } = told_registers(trial.told, &None, receipts);
    words
}

impl HeldCall {
    /// The words that the receipts of a call give, which has begun.
    fn words_so_far(&self, order: u8, receipts: &[Receipt]) -> ReplyWords
        requires order { IsTableOrder order }
        requires fits { HeldFits order self.now }
        requires begun { IsBegun (plan_of_held self.now) receipts.now }
        ensures { result ≡ ((plan_of_held self.now).told receipts.now).1 }
    {
        match self {
            HeldCall::Tries { trial } => trial_words(order, trial, receipts),
            HeldCall::Removes { order: _, pairs } => {
                let Registers { rc: _, words } = removal_registers(order, pairs, receipts);
                words
            }
        }
    }
}

impl Working {
    /// What a call that is held up has given so far: H_BUSY, and the words of its receipts.
    pub fn registers_so_far(&self) -> Registers
        ensures rc { result.rc ≡ Busy }
        ensures words { (call : Held)
            → self.now.pending ≡ Call call
            → result.words ≡ ((plan_of_held call).told self.now.receipts).1 }
    {
        let Pending::Call { call } = &self.pending else {
            return Registers::with_code(Rc::Busy);
        };
        Registers {
            rc: Rc::Busy,
            words: call.words_so_far(self.order(), self.receipts.as_slice()),
        }
    }
}
