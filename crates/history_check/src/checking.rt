//! The judge of a whole text: section after section, each ended by a quiet line, up to the first
//! that no good run explains.
ghost use Rattle.std.specs.Prelude.{◌≡◌, ◌≤◌, ◌<◌, ◌+◌, ◌-◌, ◌^◌, ◌++◌, ◌∷◌, ℕ, List, true, IfOk, IfSome, IfNone, OnOk};
ghost use Rattle.trace_line.specs.Lines.{is_quiet};
ghost use Rattle.reply_text.specs.Text.{reply_text};
ghost use Rattle.run_model.specs.AllStores.{opening_all};
ghost use Rattle.run_model.specs.Quiet.{NoneQuiet};
ghost use Rattle.history_check.specs.FoundStores.{run_quiet_on};
ghost use Rattle.history_check.specs.Verdict.{IsVerdict};

use crate::judged_run::JudgedRun;
use crate::verdict::Verdict;
use reply_text::put_reply;
use std::alloc::{AllocError, Global};
use trace_line::TraceLine;
use trace_read::Trace;
use trace_reply::Reply;

/// The lines before the first quiet one, this one, and those after it. `None` where none is quiet.
fn first_section(lines: &[TraceLine]) -> Option<(&[TraceLine], &TraceLine, &[TraceLine])>
    ensures parts { IfSome
        result
        (λ parts. lines.now ≡ parts.0.now ++ parts.1.now ∷ parts.2.now) }
    ensures plain { IfSome result (λ parts. NoneQuiet parts.0.now) }
    ensures quiet { IfSome result (λ parts. is_quiet parts.1.now.act ≡ true) }
    ensures none { IfNone result (NoneQuiet lines.now) }
{
    for (i, line) in lines.iter().enumerate() {
        if line.act.is_quiet() {
            return Some((&lines[..i], line, &lines[i + 1..]));
        }
    }
    None
}

/// What follows the text of a reply, if that stands first in the given text.
fn behind_reply<'a>(
    alloc: Global,
    line: &TraceLine,
    reply: &Reply,
    text: &'a [u8],
) -> Result<Option<&'a [u8]>, AllocError>
    ensures some { IfOk
        result
        (λ behind.
        IfSome behind (λ rest. text.now ≡ reply_text line.now reply.now ++ rest.now)) }
    ensures none { IfOk
        result
        (λ behind.
        IfNone
        behind
        ((rest : List ℕ) → text.now ≡ reply_text line.now reply.now ++ rest → ⊥)) }
{
    let mut own = String::new(alloc);
    put_reply(&mut own, line, reply)?;
    Ok(text.strip_prefix(own.as_bytes()))
}

/// Runs a quiet line, and gives the text that follows its reply. `None` where the text does not
/// begin with that reply.
fn behind_quiet<'a>(
    alloc: Global,
    run: &mut JudgedRun,
    line: &TraceLine,
    text: &'a [u8],
) -> Result<Option<&'a [u8]>, AllocError>
    requires quiet { is_quiet line.now.act ≡ true }
    requires number { run.old.table.memory.table.number < 2 ^ 32 - 1 }
    ensures some { IfOk
        result
        (λ behind.
        IfSome
        behind
        (λ rest.
        text.now ≡ reply_text line.now (run_quiet_on run.old line.now.act).0 ++ rest.now)) }
    ensures none { IfOk
        result
        (λ behind.
        IfNone
        behind
        ((rest : List ℕ)
        → text.now ≡ reply_text line.now (run_quiet_on run.old line.now.act).0 ++ rest
        → ⊥)) }
    ensures run { OnOk result (run.new ≡ (run_quiet_on run.old line.now.act).1) }
    ensures number { OnOk
        result
        (run.new.table.memory.table.number ≤ run.old.table.memory.table.number + 1) }
{
    let reply = run.quiet(alloc, &line.act)?;
    behind_reply(alloc, line, &reply, text)
}

/// The verdict on a text of replies to a trace, from a run that has just been opened on.
fn judge_sections(
    alloc: Global,
    run: &mut JudgedRun,
    trace: &Trace,
    text: &[u8],
) -> Result<Verdict, AllocError>
    requires opened { run.old ≡ opening_all trace.now.config }
    ensures { IfOk result (λ verdict. IsVerdict trace.now text.now verdict) }
{
    trace.keeps_limits();
    let mut lines = trace.lines.as_slice();
    let mut rest = text;
    let mut standing = 0;
    while let Some((plain, quiet, others)) = first_section(lines) {
        let Some(count) = run.section(alloc, plain, rest)? else {
            return Ok(Verdict::Bad(standing + 1));
        };
        let Some(behind) = behind_quiet(alloc, run, quiet, &rest[count..])? else {
            return Ok(Verdict::Bad(standing + 1));
        };
        rest = behind;
        lines = others;
        standing += 1;
    }
    match run.section(alloc, lines, rest)? {
        Some(count) if count == rest.len() => Ok(Verdict::Good),
        Some(_) => Ok(Verdict::Bad(standing + 2)),
        None => Ok(Verdict::Bad(standing + 1)),
    }
}

/// The verdict on a text of replies to a trace: `Good` where it is the text of a good run of the
/// trace, else `Bad` with the first section that no good run explains. Sections are counted from 1,
/// and a quiet line ends each but the last; where all are explained and something follows them, it
/// is one more than there are.
pub fn check_replies(alloc: Global, trace: &Trace, text: &[u8]) -> Result<Verdict, AllocError>
    ensures { IfOk result (λ verdict. IsVerdict trace.now text.now verdict) }
{
    let mut run = JudgedRun::open(alloc, &trace.config)?;
    judge_sections(alloc, &mut run, trace, text)
}
