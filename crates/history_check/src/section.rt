//! One section judged on one store: read its marks, find the states by their places, and judge its
//! lines by these.
ghost use Rattle.std.specs.Prelude.{◌≡◌, ◌≤◌, ◌<◌, ◌^◌, length, IfOk};
ghost use Rattle.std.specs.List.{AllByRecursion};
ghost use Rattle.entry_model.specs.State.{State};
ghost use Rattle.entry_model.specs.Fronts.{opening_fronts};
ghost use Rattle.run_model.specs.Quiet.{NoneQuiet};
ghost use Rattle.history_check.specs.FoundSection.{TellsSection};
ghost use Rattle.hpte_fields.specs.TableSize.{entry_count, greatest_order};
ghost use Rattle.trace_line.specs.Lines.{most_lines, AreOnProcessors};

use crate::context::Context;
use crate::fronts::pair_of;
use crate::judging_lines::judge_lines;
use crate::placed::find_states;
use crate::reading::{SectionSteps, read_section};
use entry_model::EntryState;
use std::alloc::{AllocError, Global};
use trace_line::TraceLine;
use vcpu::Cpu;

/// The pairs of stamp and number of bits of states.
fn pairs_of(alloc: Global, states: &[EntryState]) -> Result<Vec<u64>, AllocError>
    ensures pairs { IfOk result (λ pairs. pairs.items ≡ opening_fronts states.now) }
    ensures low { IfOk
        result
        (λ pairs. AllByRecursion (λ (s : State). s.stamp < 2 ^ 32) states.now) }
{
    let mut pairs = Vec::with_capacity(alloc, states.len())?;
    for state in states {
        pairs.push(pair_of(state))?;
    }
    Ok(pairs)
}

/// Finds a section that opens on these states, with these processors: how many bytes at the start
/// are the text of good replies to its lines. Leaves the states on which it closes, and its
/// processors. `None` where the text begins with no such replies; then nothing is said of the
/// states.
pub fn section_found(
    alloc: Global,
    context: &Context,
    states: &mut Vec<EntryState>,
    processors: &mut Vec<Cpu>,
    lines: &[TraceLine],
    text: &[u8],
) -> Result<Option<usize>, AllocError>
    requires plain { NoneQuiet lines.now }
    requires cpus { AreOnProcessors (length processors.old.items) lines.now }
    requires few { length states.old.items ≤ entry_count greatest_order }
    requires few_lines { length lines.now ≤ most_lines }
    ensures told { IfOk
        result
        (λ found.
        TellsSection
        (record {
          context = context.now;
          states = states.old.items;
          processors = processors.old.items;
        })
        lines.now
        text.now
        found
        states.new.items
        processors.new.items) }
    ensures states { length states.new.items ≡ length states.old.items }
    ensures processors { length processors.new.items ≡ length processors.old.items }
{
    let opening = pairs_of(alloc, states)?;
    let Some(read) = read_section(alloc, context, states.len(), lines, text)? else {
        return Ok(None);
    };
    let SectionSteps { steps, counts } = read;
    let found = find_states(alloc, states, lines, steps)?;
    let judged = judge_lines(
        alloc,
        context,
        opening.as_slice(),
        states.as_slice(),
        processors,
        lines,
        counts.as_slice(),
        found.as_slice(),
        text,
    )?;
    Ok(judged)
}
