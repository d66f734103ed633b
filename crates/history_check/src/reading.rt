//! Marks read from the text of a section: one line of text for each line, with marks of entries
//! within the table.
ghost use Rattle.std.specs.Prelude.{◌≡◌, ◌<◌, ◌≤◌, ◌++◌, ◌∷◌, ◌↔◌, true, length, IsTrue, IfOk, IfSome, IfNone};
ghost use Rattle.std.specs.List.{AllByRecursion};
ghost use Rattle.receipt_text.specs.Cuts.{lacks};
ghost use Rattle.receipt_text.specs.declared.mark.Mark.{Mark};
ghost use Rattle.run_model.specs.Quiet.{NoneQuiet};
ghost use Rattle.history_check.specs.SectionMarks.{NoMarks, ReadMarks};
ghost use Rattle.trace_line.specs.Lines.{most_lines};

use crate::calls::names_few;
use crate::context::Context;
use crate::mark_steps::{LineStep, put_steps};
use memchr::memchr;
use receipt_text::{Mark, marks_of};
use std::alloc::{AllocError, Global};
use trace_line::TraceLine;

/// The steps that the marks of a section's lines show, and how many each line has.
#[derive(Drop)]
pub struct SectionSteps {
    /// The steps, in file order.
    pub steps: Vec<LineStep>,
    /// How many of the steps each line has.
    pub counts: Vec<usize>,
}

/// The text before the first LF, and the text after it.
pub fn first_reply(text: &[u8]) -> Option<(&[u8], &[u8])>
    ensures lacks { IfSome result (λ parts. lacks 10 parts.0.now ≡ true) }
    ensures parts { IfSome result (λ parts. text.now ≡ parts.0.now ++ 10 ∷ parts.1.now) }
    ensures none { IfNone result (lacks 10 text.now ≡ true) }
{
    match memchr(b'\n', text) {
        None => None,
        Some(end) => Some((&text[..end], &text[end + 1..])),
    }
}

/// Whether the marks are of entries of a table of this size.
fn are_in_table(marks: &[Mark], size: usize) -> bool
    ensures { IsTrue result ↔ AllByRecursion (λ (m : Mark). m.entry < size) marks.now }
{
    for mark in marks {
        if mark.entry as usize >= size {
            return false;
        }
    }
    true
}

/// Reads the marks of a section's lines from a text that begins with the replies to them. `None`
/// where it begins with no replies that show marks of entries of a table of this size.
pub fn read_section(
    alloc: Global,
    context: &Context,
    size: usize,
    lines: &[TraceLine],
    text: &[u8],
) -> Result<Option<SectionSteps>, AllocError>
    requires plain { NoneQuiet lines.now }
    requires few { length lines.now ≤ most_lines }
    ensures some { IfOk
        result
        (λ read.
        IfSome
        read
        (λ x.
        ReadMarks context.now size lines.now text.now x.steps.items x.counts.items)) }
    ensures none { IfOk
        result
        (λ read. IfNone read (NoMarks context.now size lines.now text.now)) }
{
    let mut steps = Vec::new(alloc);
    let mut counts = Vec::with_capacity(alloc, lines.len())?;
    let mut rest = text;
    for (i, line) in lines.iter().enumerate() {
        names_few(context, &line.act);
        let Some((own, others)) = first_reply(rest) else {
            return Ok(None);
        };
        let shown = marks_of(own);
        let Some(marks) = &shown else {
            return Ok(None);
        };
        let marks = marks.as_slice();
        if !are_in_table(marks, size) {
            return Ok(None);
        }
        put_steps(&mut steps, i as u32, &line.act, marks)?;
        counts.push(marks.len())?;
        rest = others;
    }
    Ok(Some(SectionSteps { steps, counts }))
}
