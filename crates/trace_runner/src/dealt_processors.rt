//! The lines of a section on a store, dealt to their processors.
ghost use Rattle.std.specs.Prelude.{◌≡◌, ◌<◌, ◌≤◌, length, IfOk};
ghost use Rattle.trace_runner.specs.DealtLines.{AreDealt, AllEmpty, count_with_own};
ghost use Rattle.trace_read.specs.Configuration.{most_processors};
ghost use Rattle.trace_line.specs.Lines.{AreOnProcessors};

use std::alloc::{AllocError, Global};
use trace_line::TraceLine;

/// Empty lists, this many.
pub fn empty_lists<T: Drop>(alloc: Global, count: usize) -> Result<Vec<Vec<T>>, AllocError>
    ensures size { IfOk result (λ lists. length lists.items ≡ count) }
    ensures empty { IfOk result (λ lists. AllEmpty lists.items) }
{
    let mut lists = Vec::with_capacity(alloc, count)?;
    for _ in 0..count {
        lists.push(Vec::new(alloc))?;
    }
    Ok(lists)
}

/// For each of so many processors the indices of its own lines among these, in file order.
pub fn deal_lines(
    alloc: Global,
    cpus: usize,
    lines: &[TraceLine],
) -> Result<Vec<Vec<usize>>, AllocError>
    requires on_cpus { AreOnProcessors cpus lines.now }
    ensures size { IfOk result (λ dealt. length dealt.items ≡ cpus) }
    ensures dealt { IfOk result (λ dealt. AreDealt lines.now dealt.items) }
{
    let mut dealt = empty_lists(alloc, cpus)?;
    for i in 0..lines.len() {
        dealt[lines[i].cpu as usize].push(i)?;
    }
    Ok(dealt)
}

/// How many processors have lines of their own.
pub fn count_workers(dealt: &[Vec<usize>]) -> u32
    requires few { length dealt.now ≤ most_processors }
    ensures count { result ≡ count_with_own dealt.now }
{
    let mut count = 0;
    for own in dealt {
        if !own.is_empty() {
            count += 1;
        }
    }
    count
}
