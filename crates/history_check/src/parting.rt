//! A section dealt to the stores: the lines on the page table and on each window, and the text of
//! their replies.
ghost use Rattle.std.specs.Prelude.{◌≡◌, ◌≤◌, ◌+◌, ◌++◌, ◌∷◌, [], length, drop, IfOk, OnOk};
ghost use Rattle.std.specs.List.{AllByRecursion};
ghost use Rattle.run_model.specs.AllStores.{windows_in};
ghost use Rattle.history_check.specs.declared.parting.Part.{Part as PartOf};
ghost use Rattle.history_check.specs.PartedText.{first_told, behind_told, behind_lines, AreParts};

use crate::reading::first_reply;
use run_model::{WindowEntries, store_of};
use std::alloc::{AllocError, Global};
use trace_line::TraceLine;

/// Lines of a section, and their part of a text.
#[derive(Drop)]
pub struct Part {
    /// The lines, in file order.
    pub lines: Vec<TraceLine>,
    /// Bytes of whole lines.
    pub text: Vec<u8>,
}

/// The text up to and with the first LF, and the text after it. Without an LF the first has all.
fn cut_reply(text: &[u8]) -> (&[u8], &[u8])
    ensures first { result.0.now ≡ first_told text.now }
    ensures behind { result.1.now ≡ behind_told text.now }
{
    match first_reply(text) {
        None => text.split_at(text.len()),
        Some((own, _)) => text.split_at(own.len() + 1),
    }
}

/// How many bytes the first lines of a text have, so many of them.
pub fn replies_end(text: &[u8], count: usize) -> usize
    ensures within { result ≤ length text.now }
    ensures behind { drop result text.now ≡ behind_lines count text.now }
{
    let mut rest = text;
    for _ in 0..count {
        let (_, others) = cut_reply(rest);
        rest = others;
    }
    text.len() - rest.len()
}

/// Appends a line and its text to those of a part.
fn put_line(part: &mut Part, line: &TraceLine, own: &[u8]) -> Result<(), AllocError>
    ensures lines { OnOk result (part.new.lines.items ≡ part.old.lines.items ++ line.now ∷ []) }
    ensures text { OnOk result (part.new.text.items ≡ part.old.text.items ++ own.now) }
{
    part.lines.push(*line)?;
    part.text.extend_from_slice(own)?;
    Ok(())
}

/// Parts without lines and without text, this many.
fn empty_parts(alloc: Global, count: usize) -> Result<Vec<Part>, AllocError>
    ensures size { IfOk result (λ parts. length parts.items ≡ count) }
    ensures empty { IfOk result
        (λ parts.
        AllByRecursion
        (λ (part : PartOf). (part.lines.items ≡ []) × (part.text.items ≡ []))
        parts.items) }
{
    let mut parts = Vec::with_capacity(alloc, count)?;
    for _ in 0..count {
        parts.push(Part {
            lines: Vec::new(alloc),
            text: Vec::new(alloc),
        })?;
    }
    Ok(parts)
}

/// For each store its lines, and their part of the text: the reply to a line that isn't quiet is
/// one line of text.
pub fn deal_parts(
    alloc: Global,
    windows: &[WindowEntries],
    lines: &[TraceLine],
    text: &[u8],
) -> Result<Vec<Part>, AllocError>
    ensures size { IfOk result (λ parts. length parts.items ≡ 1 + length windows.now) }
    ensures parts { IfOk result
        (λ parts. AreParts (windows_in windows.now) lines.now text.now parts.items) }
{
    let mut parts = empty_parts(alloc, windows.len() + 1)?;
    let mut rest = text;
    for line in lines {
        let (own, others) = cut_reply(rest);
        let number = store_of(windows, &line.act);
        put_line(&mut parts[number], line, own)?;
        rest = others;
    }
    Ok(parts)
}
