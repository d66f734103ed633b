//! A section's lines judged in file order, each with its share of the states found, its processor,
//! and that processor's fronts.
ghost use Rattle.std.specs.Prelude.{◌≡◌, ◌<◌, length, ℕ, false, IfOk};
ghost use Rattle.entry_model.specs.Fronts.{front_at};
ghost use Rattle.trace_line.specs.Lines.{is_quiet, AreOnProcessors};
ghost use Rattle.run_model.specs.Quiet.{NoneQuiet};
ghost use Rattle.history_check.specs.FrontKeeping.{fronts_of};
ghost use Rattle.history_check.specs.JudgedLines.{judged, TellsLine, TellsLines};

use crate::context::Context;
use crate::fronts::Fronts;
use crate::judging::judge_line;
use entry_model::EntryState;
use std::alloc::{AllocError, Global};
use trace_line::TraceLine;
use trace_reply::ReplySlot;
use vcpu::Cpu;

/// How many fronts of all processors may be listed, in 2 MB.
const MOST_LISTED: usize = 0x4_0000;

/// So many processors' fronts, none of which has left the states on which a section opened, which
/// have these pairs.
fn opening_fronts(alloc: Global, opening: &[u64], count: usize) -> Result<Vec<Fronts>, AllocError>
    ensures size { IfOk result (λ fronts. length fronts.items ≡ count) }
    ensures fronts { IfOk
        result
        (λ fronts.
        (cpu e : ℕ) → fronts_of fronts.items opening.now cpu e ≡ front_at opening.now e) }
{
    let most = MOST_LISTED / count.max(1);
    let mut fronts = Vec::with_capacity(alloc, count)?;
    for _ in 0..count {
        fronts.push(Fronts::new(alloc, opening, most)?)?;
    }
    Ok(fronts)
}

/// Judges a line by the states that its operations found, as `judge_line` does, with the processor
/// that made it and that processor's fronts.
fn judge_next(
    context: &Context,
    opening: &[u64],
    closing: &[EntryState],
    processors: &mut Vec<Cpu>,
    fronts: &mut Vec<Fronts>,
    line: &TraceLine,
    found: &[EntryState],
    given: &[u8],
    out: &mut String,
    slot: &mut ReplySlot,
) -> Result<Option<usize>, AllocError>
    requires plain { is_quiet line.now.act ≡ false }
    requires cpu { line.now.cpu < length processors.old.items }
    requires fronts { length fronts.old.items ≡ length processors.old.items }
    ensures told { IfOk
        result
        (λ o.
        TellsLine
        (record {
          context = context.now;
          closing = closing.now;
          line = line.now;
          found = found.now;
          given = given.now;
        })
        processors.old.items
        (fronts_of fronts.old.items opening.now)
        o
        processors.new.items
        (fronts_of fronts.new.items opening.now)) }
    ensures processors { length processors.new.items ≡ length processors.old.items }
    ensures fronts { length fronts.new.items ≡ length fronts.old.items }
{
    let cpu = line.cpu as usize;
    let processor = &mut processors[cpu];
    let own = &mut fronts[cpu];
    let judged = judge_line(
        context, opening, closing, processor, own, line, found, given, out, slot,
    )?;
    Ok(judged)
}

/// Judges the lines of a section one after the other, with these fronts of the processors.
fn judge_each(
    alloc: Global,
    context: &Context,
    opening: &[u64],
    closing: &[EntryState],
    processors: &mut Vec<Cpu>,
    fronts: &mut Vec<Fronts>,
    lines: &[TraceLine],
    counts: &[usize],
    found: &[EntryState],
    given: &[u8],
) -> Result<Option<usize>, AllocError>
    requires plain { NoneQuiet lines.now }
    requires cpus { AreOnProcessors (length processors.old.items) lines.now }
    requires size { length counts.now ≡ length lines.now }
    requires fronts { length fronts.old.items ≡ length processors.old.items }
    ensures told { IfOk
        result
        (λ o.
        TellsLines
        (judged context.now closing.now lines.now counts.now found.now)
        processors.old.items
        (fronts_of fronts.old.items opening.now)
        given.now
        o
        processors.new.items) }
    ensures processors { length processors.new.items ≡ length processors.old.items }
{
    let mut out = String::new(alloc);
    let mut slot = ReplySlot::new();
    let mut states = found;
    let mut text = given;
    for i in 0..lines.len() {
        let line = &lines[i];
        let count = counts[i];
        if count > states.len() {
            return Ok(None);
        }
        let (mine, others) = states.split_at(count);
        let told = judge_next(
            context, opening, closing, processors, fronts, line, mine, text, &mut out, &mut slot,
        )?;
        let Some(bytes) = told else {
            return Ok(None);
        };
        let (_, behind) = text.split_at(bytes);
        states = others;
        text = behind;
    }
    if states.is_empty() {
        Ok(Some(given.len() - text.len()))
    } else {
        Ok(None)
    }
}

/// Judges the lines of a section by the states that their operations found: so many of each line,
/// one line after the other. `opening` has the pairs of the states on which the section opened, and
/// `closing` the states on which it closes. Gives how many bytes of the given text the replies
/// have, and leaves the processors as they are after the lines. `None` where no replies stand.
pub fn judge_lines(
    alloc: Global,
    context: &Context,
    opening: &[u64],
    closing: &[EntryState],
    processors: &mut Vec<Cpu>,
    lines: &[TraceLine],
    counts: &[usize],
    found: &[EntryState],
    given: &[u8],
) -> Result<Option<usize>, AllocError>
    requires plain { NoneQuiet lines.now }
    requires cpus { AreOnProcessors (length processors.old.items) lines.now }
    requires size { length counts.now ≡ length lines.now }
    ensures told { IfOk
        result
        (λ o.
        TellsLines
        (judged context.now closing.now lines.now counts.now found.now)
        processors.old.items
        (λ cpu e. front_at opening.now e)
        given.now
        o
        processors.new.items) }
    ensures processors { length processors.new.items ≡ length processors.old.items }
{
    let mut fronts = opening_fronts(alloc, opening, processors.len())?;
    let told = judge_each(
        alloc,
        context,
        opening,
        closing,
        processors,
        &mut fronts,
        lines,
        counts,
        found,
        given,
    )?;
    Ok(told)
}
