//! Steps made of the marks of a reply, each with its place in its entry's history: the stamp, the
//! count of R and C, and whether the entry changed.
ghost use Rattle.std.specs.Prelude.{◌≡◌, ◌≤◌, ◌<◌, ◌+◌, ◌^◌, ◌++◌, length, OnOk};
ghost use Rattle.history_check.specs.Steps as steps_of;
ghost use Rattle.history_check.specs.PlacedSteps.{is_store_act};
ghost use Rattle.history_check.specs.MarkSteps as steps_by;

use entry_model::Answer;
use receipt_text::Mark;
use std::alloc::AllocError;
use storage_prot::Want;
use trace_line::Act;

/// A receipt of a section's line as its mark shows it, and its place in its entry's history.
#[derive(Clone, Copy)]
pub struct LineStep {
    // Fields lie in memory in this order, in 24 bytes: a section may have millions of steps.
    /// The place of the receipt in its entry's history.
    pub place: u64,
    /// Which of the section's receipts it is.
    pub index: u32,
    /// Which of the section's lines made it.
    pub line: u32,
    /// The entry's index.
    pub entry: u32,
    /// What the entry answered.
    pub answer: Answer,
}

/// Whether the operations of a line are stores of a processor.
fn is_store(act: &Act) -> bool
    ensures { result ≡ is_store_act act.now }
{
    matches!(
        act,
        Act::Access {
            want: Want::Store,
            ..
        }
    )
}

/// Whether an operation, a store or none, changed nothing, as its answer and R and C before it
/// show.
fn is_unchanged(store: bool, answer: Answer, referenced: bool, changed: bool) -> bool
    ensures { result ≡ steps_of.is_unchanged store answer referenced changed }
{
    if answer.is_change() {
        return false;
    }
    if !matches!(answer, Answer::At) {
        return true;
    }
    referenced && (changed || !store)
}

/// How many of R and C a mark's digit has.
fn bit_count(bits: u8) -> u64
    ensures { result ≡ steps_of.bit_count bits }
{
    u64::from(bits >= 2) + u64::from(bits == 1 || bits == 3)
}

/// The place of a receipt with this mark, of an operation that is a store or none.
#[tactic(auto, unfolding(crate::specs::Steps::place_by))]
fn place(mark: &Mark, store: bool) -> u64
    ensures { result ≡ steps_of.place_by mark.now store }
{
    let bits = mark.bits;
    let still = is_unchanged(store, mark.answer, bits >= 2, bits == 1 || bits == 3);
    let before = u64::from(mark.stamp) * 4 + bit_count(bits);
    before * 2 + u64::from(!still)
}

/// Appends the steps of a line whose reply shows these marks; `line` says which of the section's it
/// is.
pub fn put_steps(
    steps: &mut Vec<LineStep>,
    line: u32,
    act: &Act,
    marks: &[Mark],
) -> Result<(), AllocError>
    requires { length steps.old.items + length marks.now ≤ 2 ^ 32 }
    ensures { OnOk
        result
        (steps.new.items
        ≡ steps.old.items
        ++ steps_by.mark_steps line (length steps.old.items) act.now marks.now) }
{
    let store = is_store(act);
    for mark in marks {
        let step = LineStep {
            place: place(mark, store),
            index: steps.len() as u32,
            line,
            entry: mark.entry,
            answer: mark.answer,
        };
        steps.push(step)?;
    }
    Ok(())
}
