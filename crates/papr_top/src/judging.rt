//! The input and the answer of `check`: a trace with recorded replies, and the judge's verdict on
//! them.
ghost use Rattle.std.specs.Prelude.{◌≡◌, ◌≢◌, IfOk, Err, string_bytes};
ghost use Rattle.papr_edge.specs.Answer.{IsAnswer};
ghost use Rattle.papr_top.specs.Judging.{IsVerdictText, verdict_text};

use history_check::{Verdict, check_replies};
use papr_edge::{Answer, Input, NoInput, Reason, cut, line_count};
use std::alloc::{AllocError, Global};
use std::fmt::Write;
use std::marker::Model;
use trace_read::{MOST_BYTES, Trace, Why};

/// A trace, and the text that is to be judged as its replies, as `check` reads them.
#[derive(Drop)]
pub struct Judged {
    trace: Trace,
    text: Vec<u8>,
}

impl Model for Judged {
    ghost use Rattle.papr_edge.specs.Inputs.{JudgedInput};

    ghost Value = { JudgedInput };

    ghost view = { λ input. record { trace = input.trace; text = input.text.items } };
}

impl Input for Judged {
    ghost use Rattle.papr_edge.specs.Inputs.{judged_input};
    ghost use Rattle.papr_edge.specs.InputLaws.{long_judged};

    ghost reads = { judged_input };

    fn parse(alloc: Global, bytes: &[u8]) -> Result<Self, NoInput> {
        if bytes.len() > MOST_BYTES {
            return Err(NoInput::Refused {
                line: 0,
                reason: Reason::Trace(Why::Long),
            });
        }
        let Some((trace, text)) = cut(bytes) else {
            return Err(NoInput::Refused {
                line: line_count(bytes) + 1,
                reason: Reason::NoReplies,
            });
        };
        let trace = Trace::parse(alloc, trace)?;
        match text.to_vec(alloc) {
            Ok(text) => Ok(Judged { trace, text }),
            Err(_) => Err(NoInput::Memory),
        }
    }

    ghost refuses_long = { long_judged };
}

/// The line that states a verdict.
fn verdict_line(alloc: Global, verdict: Verdict) -> Result<String, AllocError>
    ensures { IfOk result (λ s. string_bytes s ≡ verdict_text verdict) }
{
    let mut out = String::new(alloc);
    match verdict {
        Verdict::Good => out.push_str("good\n")?,
        Verdict::Bad(section) => write!(out, "bad section {section}\n")?,
    }
    Ok(out)
}

/// The verdict on the text after the trace.
pub fn verdict_answer(alloc: Global, input: &Judged) -> Result<Answer, AllocError>
    ensures { IfOk result (λ answer. IsAnswer IsVerdictText input.now answer) }
{
    input.trace.keeps_limits();
    let verdict = check_replies(alloc, &input.trace, &input.text)?;
    let line = verdict_line(alloc, verdict)?;
    match verdict {
        Verdict::Good => Ok(Answer::Done(line)),
        Verdict::Bad(_) => Ok(Answer::CheckNo(line)),
    }
}
