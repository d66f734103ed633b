//! A reply compared with the given text: it fits if it has a receipt for each state found and the
//! text begins with its bytes.
ghost use Rattle.std.specs.Prelude.{◌≡◌, ◌≤◌, ◌++◌, drop, length, map, List, ℕ, IfOk, IfSome, IfNone};
ghost use Rattle.std.specs.List.{AllByRecursion};
ghost use Rattle.trace_reply.specs.Replies.{receipts_in};
ghost use Rattle.trace_reply.specs.Slots.{reply_in};
ghost use Rattle.reply_text.specs.Text.{reply_text};
ghost use Rattle.receipt_text.specs.Marks.{IsMark};
ghost use Rattle.receipt_text.specs.Receipts.{mark_of};
ghost use Rattle.history_check.specs.Replay.{before_each};
ghost use Rattle.history_check.specs.LineReply.{FitsText};

use entry_model::{EntryState, Receipt};
use reply_text::put_slot;
use std::alloc::AllocError;
use trace_line::TraceLine;
use trace_reply::{ReplyEnd, ReplySlot};

/// States that entry and stamp of a receipt fit into a mark, and does nothing else.
fn has_mark(receipt: &Receipt)
    ensures { IsMark (mark_of receipt.now) }
{
    let _entry = receipt.entry;
    let _stamp = receipt.before.stamp;
}

/// States the same of each of the receipts, and does nothing else.
fn have_marks(receipts: &[Receipt])
    ensures { AllByRecursion IsMark (map mark_of receipts.now) }
{
    for receipt in receipts {
        has_mark(receipt);
    }
}

/// The receipts of the reply in the slot.
pub fn receipts_of(slot: &ReplySlot) -> &[Receipt]
    ensures { result.now ≡ receipts_in (reply_in slot.now) }
{
    match &slot.end {
        ReplyEnd::Hcall(_) | ReplyEnd::Access(_) | ReplyEnd::Device(_) => {
            slot.receipts.as_slice()
        }
        ReplyEnd::Segment(_) | ReplyEnd::MaskSet | ReplyEnd::Dump(_) => &[],
    }
}

/// How many bytes a text has, if the given one begins with it.
fn begins_with(given: &[u8], text: &[u8]) -> Option<usize>
    ensures some { IfSome result (λ n. given.now ≡ text.now ++ drop n given.now) }
    ensures within { IfSome result (λ n. n ≤ length given.now) }
    ensures none { IfNone result ((rest : List ℕ) → given.now ≡ text.now ++ rest → ⊥) }
{
    if given.starts_with(text) {
        Some(text.len())
    } else {
        None
    }
}

/// How many bytes the text of the reply in the slot has, if it has as many receipts as these
/// states, and the given text begins with its text. `out` is room to write in.
pub fn fitting(
    out: &mut String,
    line: &TraceLine,
    slot: &ReplySlot,
    found: &[EntryState],
    given: &[u8],
) -> Result<Option<usize>, AllocError>
    requires { length (receipts_in (reply_in slot.now)) ≡ length found.now
        → before_each (receipts_in (reply_in slot.now)) ≡ found.now }
    ensures some { IfOk
        result
        (λ o. IfSome o (FitsText line.now found.now given.now (reply_in slot.now))) }
    ensures none { IfOk
        result
        (λ o.
        IfNone
        o
        ((rest : List ℕ)
        → before_each (receipts_in (reply_in slot.now)) ≡ found.now
        → given.now ≡ reply_text line.now (reply_in slot.now) ++ rest
        → ⊥)) }
{
    let receipts = receipts_of(slot);
    if receipts.len() != found.len() {
        return Ok(None);
    }
    have_marks(receipts);
    out.clear();
    put_slot(out, line, slot)?;
    Ok(begins_with(given, out.as_bytes()))
}
