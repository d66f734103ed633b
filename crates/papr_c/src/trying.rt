//! Operations on lent entries: one with its receipt and its mark, and several in turn, until an
//! answer ends the trial.
ghost use Rattle.std.specs.Prelude.{◌≡◌, ◌≤◌, ◌<◌, ◌^◌, length, map, set};
ghost use Rattle.std.specs.List.{AllByRecursion};
ghost use Rattle.entry_model.specs.Receipt.{after_of, receipt_of};
ghost use Rattle.entry_model.specs.Run.{state_at, states_after};
ghost use Rattle.entry_model.specs.Trial.{Call, ending_of, trial_run};
ghost use Rattle.c_layout.specs.Entries.{states_of, ArePassed};
ghost use Rattle.c_layout.specs.Slots.{placed, shown_receipt};
ghost use Rattle.papr_c.specs.Tried.{IsTriedNext};

use c_layout::{PaprEntry, PaprReceipt, put_receipt};
use entry_model::{Answer, CallList, EntryState, Op, Receipt, reply};
use hpt_resize::StateHolder;

/// How a trial ended.
#[derive(Clone, Copy)]
pub struct Tried {
    /// The receipt after which the trial didn't go on, if there was one.
    pub ending: Option<Receipt>,
    /// How many calls were made.
    pub count: u32,
}

/// Whether an access was allowed.
#[inline(always)]
fn is_at(answer: Answer) -> bool
    ensures { result ≡ Rattle.entry_model.specs.Receipt.is_at answer }
{
    matches!(answer, Answer::At)
}

/// Gives an entry its state after an operation. A change raises the stamp, so the entry is marked
/// then, and an access that is allowed may have set R or C. Else the entry is as it was, and isn't
/// written: a walk goes past most of them.
#[inline(always)]
fn store(entries: &mut [PaprEntry], receipt: &Receipt, after: &EntryState)
    requires in_table { receipt.now.entry < length entries.old }
    requires before { receipt.now.before ≡ state_at (states_of entries.old) receipt.now.entry }
    requires after { after.now ≡ after_of receipt.now }
    ensures entries { states_of entries.new ≡ states_after (states_of entries.old) receipt.now }
    ensures passed { ArePassed entries.old entries.new }
{
    if receipt.answer.is_change() {
        entries[receipt.entry as usize] = PaprEntry::of(after, true);
    } else if is_at(receipt.answer) {
        entries[receipt.entry as usize].hold(after);
    }
}

/// The receipt of an operation on an entry in this state, and the entry's state after it.
#[inline(always)]
pub fn asked(entry: u32, before: EntryState, op: &Op) -> (Receipt, EntryState)
    ensures receipt { result.0 ≡ receipt_of entry before op.now }
    ensures after { result.1 ≡ after_of result.0 }
{
    let (answer, after) = reply(&before, op);
    let receipt = Receipt {
        entry,
        before,
        op: *op,
        answer,
    };
    (receipt, after)
}

/// Makes an operation on an entry, and puts the receipt into the caller's slot, where there is
/// one.
#[inline(always)]
pub fn make(
    entries: &mut [PaprEntry],
    op: &Op,
    entry: u32,
    receipts: &mut [PaprReceipt],
    index: u32,
) -> Receipt
    requires { entry < length (states_of entries.old) }
    ensures receipt { result ≡ receipt_of entry (state_at (states_of entries.old) entry) op.now }
    ensures entries { states_of entries.new ≡ states_after (states_of entries.old) result }
    ensures passed { ArePassed entries.old entries.new }
    ensures receipts { receipts.new ≡ set receipts.old index (shown_receipt result) }
{
    let before = entries[entry as usize].state();
    let (receipt, after) = asked(entry, before, op);
    store(entries, &receipt, &after);
    put_receipt(&receipt, receipts, index);
    receipt
}

/// Makes the call after the first `made` on its entry, and puts its receipt into the caller's
/// slot, where there is one. Gives back how the trial ended, or `None` where the next call
/// follows.
#[inline(always)]
fn try_next<C: CallList>(
    entries: &mut [PaprEntry],
    calls: &C,
    receipts: &mut [PaprReceipt],
    made: u32,
) -> Option<Tried>
    requires in_table { AllByRecursion
        (λ (c : Call). c.entry < length (states_of entries.old))
        (C.calls calls.now) }
    requires near { made ≤ length (C.calls calls.now) }
    requires small { made < 2 ^ 31 }
    ensures next { IsTriedNext
        (C.goes_on calls.now)
        (C.calls calls.now)
        made
        (record {
          before = states_of entries.old;
          after = states_of entries.new;
          slots_before = receipts.old;
          slots_after = receipts.new;
        })
        result }
    ensures passed { ArePassed entries.old entries.new }
{
    let Some((entry, op)) = calls.call_at(made) else {
        return Some(Tried {
            ending: None,
            count: made,
        });
    };
    let receipt = make(entries, &op, entry, receipts, made);
    if calls.goes_on_after(receipt.answer) {
        return None;
    }
    Some(Tried {
        ending: Some(receipt),
        count: made + 1,
    })
}

/// Makes calls on entries in turn, as long as the answers go on. The receipts are put into the
/// caller's slots, as far as these go.
// In line, so that each caller has the part of `reply` that its operation needs, and no other.
#[inline(always)]
pub fn try_lent<C: CallList>(
    entries: &mut [PaprEntry],
    calls: &C,
    receipts: &mut [PaprReceipt],
) -> Tried
    requires in_table { AllByRecursion
        (λ (c : Call). c.entry < length (states_of entries.old))
        (C.calls calls.now) }
    requires few { length (C.calls calls.now) ≤ 16 }
    ensures entries { states_of entries.new
        ≡ (trial_run (C.goes_on calls.now) (states_of entries.old) (C.calls calls.now)).1 }
    ensures passed { ArePassed entries.old entries.new }
    ensures receipts { let states = states_of entries.old in
        let made = (trial_run (C.goes_on calls.now) states (C.calls calls.now)).0 in
        receipts.new ≡ placed receipts.old 0 (map shown_receipt made) }
    ensures count { result.count
        ≡ length
        (trial_run (C.goes_on calls.now) (states_of entries.old) (C.calls calls.now)).0 }
    ensures ending { let goes = C.goes_on calls.now in
        result.ending
        ≡ ending_of goes (trial_run goes (states_of entries.old) (C.calls calls.now)).0 }
{
    for made in 0..16 {
        if let Some(tried) = try_next(entries, calls, receipts, made) {
            return tried;
        }
    }
    Tried {
        ending: None,
        count: 16,
    }
}

/// Makes the calls of `try_lent`, eight by eight: the compiler then knows the group of each call of
/// a walk.
#[inline(always)]
pub fn try_by_groups<C: CallList>(
    entries: &mut [PaprEntry],
    calls: &C,
    receipts: &mut [PaprReceipt],
) -> Tried
    requires in_table { AllByRecursion
        (λ (c : Call). c.entry < length (states_of entries.old))
        (C.calls calls.now) }
    requires few { length (C.calls calls.now) ≤ 16 }
    ensures entries { states_of entries.new
        ≡ (trial_run (C.goes_on calls.now) (states_of entries.old) (C.calls calls.now)).1 }
    ensures passed { ArePassed entries.old entries.new }
    ensures receipts { let states = states_of entries.old in
        let made = (trial_run (C.goes_on calls.now) states (C.calls calls.now)).0 in
        receipts.new ≡ placed receipts.old 0 (map shown_receipt made) }
    ensures count { result.count
        ≡ length
        (trial_run (C.goes_on calls.now) (states_of entries.old) (C.calls calls.now)).0 }
    ensures ending { let goes = C.goes_on calls.now in
        result.ending
        ≡ ending_of goes (trial_run goes (states_of entries.old) (C.calls calls.now)).0 }
{
    for made in 0..8 {
        if let Some(tried) = try_next(entries, calls, receipts, made) {
            return tried;
        }
    }
    for made in 8..16 {
        if let Some(tried) = try_next(entries, calls, receipts, made) {
            return tried;
        }
    }
    Tried {
        ending: None,
        count: 16,
    }
}
