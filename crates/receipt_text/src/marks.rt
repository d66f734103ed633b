//! Marks read back from a reply's line: of each receipt the entry's index, its stamp, R and C, and
//! the word of the answer.
ghost use Rattle.std.specs.Prelude.{◌≡◌, ◌<◌, ◌^◌, ℕ, List, IfSome, IfNone};
ghost use Rattle.std.specs.Fmt.{decimal};
ghost use Rattle.entry_model.specs.declared.operation.Answer.{Answer};
ghost use Rattle.receipt_text.specs.declared.mark.Mark.{Mark};
ghost use Rattle.number_text.specs.Numbers.{hex};
ghost use Rattle.receipt_text.specs.Receipts.{answer_word, mark_word};
ghost use Rattle.receipt_text.specs.Marks.{AreSpelt, HasMarks, IsMark};

use crate::cuts::{behind_bar, first_word, split_at};
use crate::digits::number_of;
use crate::mark::{Mark, Marks};
use crate::receipts::word_of;
use entry_model::Answer;

/// The entry whose index a word writes.
fn entry_of(word: &[u8]) -> Option<u32>
    ensures some { IfSome result (λ n. hex n ≡ word.now) }
    ensures none { IfNone result ((n : ℕ) → n < 2 ^ 32 → hex n ≡ word.now → ⊥) }
{
    match word {
        [b'0', b'x', digits @ ..] => number_of(digits, 16),
        _ => None,
    }
}

/// R and C as a digit writes them.
fn bits_of(word: &[u8]) -> Option<u8>
    ensures some { IfSome result (λ n. (n < 4) × (decimal n ≡ word.now)) }
    ensures none { IfNone result ((n : ℕ) → n < 4 → decimal n ≡ word.now → ⊥) }
{
    let bits = number_of(word, 10)?;
    if bits < 4 { Some(bits as u8) } else { None }
}

/// The answer that a word names.
#[tactic(auto, unfolding(crate::specs::Receipts::answer_word))]
fn answer_of(word: &[u8]) -> Option<Answer>
    ensures some { IfSome result (λ a. answer_word a ≡ word.now) }
    ensures none { IfNone result ((a : Answer) → answer_word a ≡ word.now → ⊥) }
{
    [
        Answer::Entered,
        Answer::Taken,
        Answer::Removed,
        Answer::Protected,
        Answer::Was,
        Answer::Words,
        Answer::NotFound,
        Answer::NoMatch,
        Answer::Denied,
        Answer::Masked,
        Answer::At,
        Answer::Worn,
    ]
    .iter()
    .copied()
    .find(|answer| word_of(*answer).as_bytes() == word)
}

/// The mark that a word is.
fn mark_in(word: &[u8]) -> Option<Mark>
    ensures some { IfSome result (λ m. IsMark m × (mark_word m ≡ word.now)) }
    ensures none { IfNone result ((m : Mark) → IsMark m → mark_word m ≡ word.now → ⊥) }
{
    let (entry, rest) = split_at(word, b'.')?;
    let (stamp, rest) = split_at(rest, b'.')?;
    let (bits, answer) = split_at(rest, b'.')?;
    Some(Mark {
        entry: entry_of(entry)?,
        stamp: number_of(stamp, 10)?,
        bits: bits_of(bits)?,
        answer: answer_of(answer)?,
    })
}

/// The marks that a text is, each after a space: 1 to 16.
fn spelt_marks(text: &[u8]) -> Option<Marks>
    ensures some { IfSome result (λ ms. AreSpelt text.now ms) }
    ensures none { IfNone result ((ms : List Mark) → AreSpelt text.now ms → ⊥) }
{
    let mut marks = Marks::new();
    let mut rest = Some(text.strip_prefix(b" ")?);
    while let Some(words) = rest {
        if marks.as_slice().len() == 16 {
            return None;
        }
        let (word, others) = first_word(words);
        marks.push(mark_in(word)?);
        rest = others;
    }
    Some(marks)
}

/// The marks of a reply's line, which follow its first space and bar. A line without these has
/// none.
///
/// `None` where what follows isn't 1 to 16 marks, each after a space and spelt
/// `ENTRY.STAMP.BITS.ANSWER`: the entry's index as `0x` and lower-case hexadecimal digits, its
/// stamp in decimal ones, both below 2^32 and without leading zeros; `0` to `3` for R and C; the
/// answer's word.
pub fn marks_of(line: &[u8]) -> Option<Marks>
    ensures some { IfSome result (λ ms. HasMarks line.now ms) }
    ensures none { IfNone result ((ms : List Mark) → HasMarks line.now ms → ⊥) }
{
    match behind_bar(line) {
        Some(rest) => spelt_marks(rest),
        None => Some(Marks::new()),
    }
}
