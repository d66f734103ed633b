//! How a hypervisor call's operations are made on a store of entries: one after the other, until an
//! answer ends them.
ghost use Rattle.std.specs.Prelude.{◌≡◌};
ghost use Rattle.entry_model.specs.Trial.{IsTrial, ending_of};
ghost use Rattle.entry_model.specs.Calls.{AreCallsIn};

use crate::calls::CallList;
use crate::lists::Receipts;
use crate::receipt::Receipt;
use crate::store::EntryStore;

/// Makes calls on the entries of a store in turn, as long as the answers go on. Their receipts
/// replace those in `receipts`. Gives back the receipt that ended the trial, or `None` where
/// the answers went on to the last call.
#[inline(always)]
pub fn make_trial<S: EntryStore, C: CallList>(
    store: &mut S,
    calls: &C,
    receipts: &mut Receipts,
) -> Option<Receipt>
    requires { AreCallsIn (S.table_order store.old) (C.calls calls.now) }
    ensures made { S.made store.old store.new receipts.new }
    ensures trial { IsTrial (C.goes_on calls.now) (C.calls calls.now) receipts.new }
    ensures ending { result ≡ ending_of (C.goes_on calls.now) receipts.new }
{
    receipts.clear();
    for made in 0..16 {
        let Some((entry, op)) = calls.call_at(made) else {
            return None;
        };
        let receipt = store.apply(entry, op);
        let answer = receipt.answer;
        receipts.push(receipt);
        if !calls.goes_on_after(answer) {
            return receipts.as_slice().last().copied();
        }
    }
    None
}
