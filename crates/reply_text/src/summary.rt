//! The twelve rows of a run's summary as text, from a list of replies or from totals raised during
//! the run.
ghost use Rattle.std.specs.Prelude.{◌≡◌, ◌++◌, OnOk, OnErr, IfOk, string_bytes, length, count_by};
ghost use Rattle.std.specs.List.{flat_map};
ghost use Rattle.std.specs.Io.{StartsWith};
ghost use Rattle.reply_text.specs.Summary.{IsCountOf, count_of, row_text, counted_text, counts_text, has_change, entries_text, summary_text};

use crate::counted::Counted;
use crate::counts::Counts;
use entry_model::EntryState;
use number_text::put_decimal;
use std::alloc::{AllocError, Global};
use trace_read::Trace;
use trace_reply::{Replies, Reply, Shown};

/// A row: a word, and its number.
#[tactic(auto, unfolding(crate::specs::Summary::row_text))]
fn put_row(out: &mut String, word: &str, number: u64) -> Result<(), AllocError>
    ensures text { OnOk
        result
        (string_bytes out.new ≡ string_bytes out.old ++ row_text word.now number) }
    ensures kept { OnErr result (StartsWith (string_bytes out.new) (string_bytes out.old)) }
{
    out.push_str(word)?;
    put_decimal(out, " ", number)?;
    out.push_str("\n")
}

/// A row for each count.
fn put_counts(out: &mut String, counts: &Counts, all: &[Counted]) -> Result<(), AllocError>
    ensures text { OnOk
        result
        (string_bytes out.new
        ≡ string_bytes out.old ++ flat_map (counted_text (count_of counts.now)) all.now) }
    ensures kept { OnErr result (StartsWith (string_bytes out.new) (string_bytes out.old)) }
{
    for counted in all {
        put_row(out, counted.word(), counts.number(*counted))?;
    }
    Ok(())
}

/// How many of the entries have C.
fn changed_count(entries: &[(u32, EntryState)]) -> usize
    ensures { result ≡ count_by has_change entries.now }
{
    entries.iter().filter(|entry| entry.1.changed).count()
}

/// How many valid entries a table has, and how many of them have C.
#[tactic(auto, unfolding(crate::specs::Summary::entries_text))]
fn put_entry_counts(out: &mut String, entries: &[(u32, EntryState)]) -> Result<(), AllocError>
    ensures text { OnOk
        result
        (string_bytes out.new ≡ string_bytes out.old ++ entries_text entries.now) }
    ensures kept { OnErr result (StartsWith (string_bytes out.new) (string_bytes out.old)) }
{
    put_row(out, "entries", entries.len() as u64)?;
    put_row(out, "changed", changed_count(entries) as u64)
}

/// The summary of a run from the counts of its replies.
#[tactic(auto, unfolding(crate::specs::Summary::counts_text))]
pub fn summary_of_counts(
    alloc: Global,
    lines: usize,
    counts: &Counts,
    table: &Shown,
) -> Result<String, AllocError>
    ensures { IfOk
        result
        (λ s. string_bytes s ≡ counts_text lines (count_of counts.now) table.now.states) }
{
    let mut out = String::new(alloc);
    put_row(&mut out, "lines", lines as u64)?;
    put_counts(&mut out, counts, &Counted::all())?;
    put_entry_counts(&mut out, table.states.as_slice())?;
    Ok(out)
}

/// The counts of replies.
fn count_replies(replies: &[Reply]) -> Counts
    ensures { IsCountOf result replies.now }
{
    let mut counts = Counts::new();
    for reply in replies {
        counts.add(reply);
    }
    counts
}

/// The summary of a run: how many run lines there are, how many hypervisor calls, accesses and
/// hits, how they ended, and how many valid entries the table at the end has, and how many of these
/// have C.
pub fn summary_of(
    alloc: Global,
    trace: &Trace,
    replies: &Replies,
    table: &Shown,
) -> Result<String, AllocError>
    ensures { IfOk
        result
        (λ s.
        string_bytes s
        ≡ summary_text (length trace.now.lines) replies.now.items table.now.states) }
{
    let counts = count_replies(replies.as_slice());
    summary_of_counts(alloc, trace.lines.as_slice().len(), &counts, table)
}
