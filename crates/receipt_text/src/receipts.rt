//! The text of receipts in a reply's line, each put together in a small array from its last piece
//! to its first.
ghost use Rattle.std.specs.Prelude.{◌≡◌, ◌≤◌, ◌+◌, ◌*◌, ◌++◌, length, drop, codes, OnOk, OnErr, string_bytes};
ghost use Rattle.std.specs.Fmt.{decimal};
ghost use Rattle.std.specs.Io.{StartsWith};
ghost use Rattle.number_text.specs.Room.{TakesAtMost};
ghost use Rattle.receipt_text.specs.Receipts.{answer_word, receipt_text, receipts_text};
ghost use Rattle.entry_model.specs.State.{bits_number};

use entry_model::{Answer, EntryState, Receipt};
use itoa::write_digits;
use number_text::{write_hexadecimal, write_piece};
use std::alloc::AllocError;

/// Room for a receipt, which has at most 34 bytes.
const RECEIPT_ROOM: usize = 48;

/// The word of an answer.
pub fn word_of(answer: Answer) -> &'static str
    ensures value { result.now ≡ answer_word answer }
    ensures short { length result.now ≤ 9 }
{
    match answer {
        Answer::Entered => "entered",
        Answer::Taken => "taken",
        Answer::Removed => "removed",
        Answer::Protected => "protected",
        Answer::Was => "was",
        Answer::Words => "read",
        Answer::NotFound => "notfound",
        Answer::NoMatch => "nomatch",
        Answer::Denied => "denied",
        Answer::Masked => "masked",
        Answer::At => "at",
        Answer::Worn => "worn",
    }
}

/// R and C before the operation, as a digit between two points.
#[tactic(auto, using(std::proofs::lemmas::Fmt::decimal_digit))]
fn bits(state: &EntryState) -> &'static str
    ensures value { result.now ≡ codes "." ++ decimal (bits_number state.now) ++ codes "." }
    ensures short { length result.now ≡ 3 }
{
    match (state.referenced, state.changed) {
        (false, false) => ".0.",
        (false, true) => ".1.",
        (true, false) => ".2.",
        (true, true) => ".3.",
    }
}

/// Writes a receipt, after a space, so that it ends where the text does. Returns where it starts.
fn write_receipt(receipt: &Receipt, text: &mut [u8; RECEIPT_ROOM]) -> usize
    ensures within { result ≤ length text.old }
    ensures short { 14 ≤ result }
    ensures written { drop result text.new ≡ receipt_text receipt.now }
{
    // From the last piece to the first: where a number starts is known once it is written.
    let word = write_piece(word_of(receipt.answer), text, RECEIPT_ROOM);
    let bits = write_piece(bits(&receipt.before), text, word);
    let stamp = write_digits(u64::from(receipt.before.stamp), text, bits);
    let point = write_piece(".", text, stamp);
    let entry = write_hexadecimal(u64::from(receipt.entry), text, point);
    write_piece(" ", text, entry)
}

/// A receipt, after a space. It is put together apart, so that the string is appended to once.
fn put_receipt(out: &mut String, receipt: &Receipt) -> Result<(), AllocError>
    ensures text { OnOk
        result
        (string_bytes out.new ≡ string_bytes out.old ++ receipt_text receipt.now) }
    ensures kept { OnErr result (StartsWith (string_bytes out.new) (string_bytes out.old)) }
    ensures room { TakesAtMost 34 result out.old out.new }
{
    let mut text = [b' '; RECEIPT_ROOM];
    let start = write_receipt(receipt, &mut text);
    out.push_str(unsafe { std::str::from_utf8_unchecked(&text[start..]) })
}

/// The receipts of a reply, each after a space, and a bar before the first.
#[tactic(auto, using(number_text::proofs::Prefixes::starts_before))]
pub fn put_receipts(out: &mut String, receipts: &[Receipt]) -> Result<(), AllocError>
    ensures text { OnOk
        result
        (string_bytes out.new ≡ string_bytes out.old ++ receipts_text receipts.now) }
    ensures kept { OnErr result (StartsWith (string_bytes out.new) (string_bytes out.old)) }
    ensures room { TakesAtMost (2 + 34 * length receipts.now) result out.old out.new }
{
    if receipts.is_empty() {
        return Ok(());
    }
    out.push_str(" |")?;
    for receipt in receipts {
        put_receipt(out, receipt)?;
    }
    Ok(())
}
