//! The loop over the operations of a trial, from the first without a receipt to one that ends the
//! trial or is busy.
ghost use Rattle.std.specs.Prelude.{◌≡◌, ◌++◌, IfOk, IfErr, IsOk};
ghost use Rattle.entry_model.specs.Trial.{IsTrial, ending_of, receipts_added};
ghost use Rattle.entry_model.specs.Calls.{AreCallsIn};
ghost use Rattle.entry_model.specs.Begun.{IsBegunTrial};
ghost use Rattle.pass_calls.specs.HeldUp.{IsHeldUpAt};

use crate::tried::TriedStore;
use entry_lock::Busy;
use entry_model::{CallList, Receipt, Receipts};

/// Makes the rest of a trial of which these receipts were made. The new ones are put after them.
/// Gives back the receipt that ended the trial, or `None` where the answers went on to the last
/// call.
///
/// # Errors
/// Busy where somebody else was at the next call's entry. The same trial with the receipts as they
/// are then goes on from there.
#[inline(always)]
pub fn try_calls<S: TriedStore, C: CallList>(
    store: &mut S,
    calls: &C,
    receipts: &mut Receipts,
) -> Result<Option<Receipt>, Busy>
    requires fits { AreCallsIn (S.table_order store.old) (C.calls calls.now) }
    requires begun { IsBegunTrial (C.goes_on calls.now) (C.calls calls.now) receipts.old }
    ensures behind { receipts.new ≡ receipts.old ++ receipts_added receipts.old receipts.new }
    ensures made { S.made store.old store.new (receipts_added receipts.old receipts.new) }
    ensures trial { IfOk result
        (λ ending. IsTrial (C.goes_on calls.now) (C.calls calls.now) receipts.new) }
    ensures ending { IfOk result
        (λ ending. ending ≡ ending_of (C.goes_on calls.now) receipts.new) }
    ensures begun { IfErr result
        (λ busy. IsBegunTrial (C.goes_on calls.now) (C.calls calls.now) receipts.new) }
    ensures next { IfErr result (λ busy. IsHeldUpAt (C.calls calls.now) receipts.new busy) }
    ensures told { IfErr result (λ busy. S.told store.old store.new busy.entry busy) }
    ensures alone { S.alone store.old → IsOk result }
{
    let done = receipts.as_slice().len() as u32;
    for i in done..16 {
        let Some((entry, op)) = calls.call_at(i) else {
            return Ok(None);
        };
        let made = store.try_apply(entry, op)?;
        let receipt = &made;
        receipts.push(*receipt);
        if !calls.goes_on_after(receipt.answer) {
            return Ok(Some(*receipt));
        }
    }
    Ok(None)
}
