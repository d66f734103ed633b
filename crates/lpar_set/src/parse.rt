//! From the bytes of an input to a set: the input is cut into lines, and a refusal has the number
//! of its line.
ghost use Rattle.std.specs.Prelude.{◌≡◌, IfOk};
ghost use Rattle.trace_read.specs.Read.{IsParsed};
ghost use Rattle.lpar_set.specs.SetTrace.{IsAcceptedSet};
ghost use Rattle.lpar_set.specs.SetGrammar.{set_of};
ghost use Rattle.lpar_set.specs.SetRead.{stop_error};

use crate::set::SetTrace;
use crate::set_reader::SetReader;
use std::alloc::Global;
use trace_read::{MOST_BYTES, Stop, TraceError, Why, lines_of, split_line};

fn error_at(line: u32, stop: Stop) -> TraceError
    ensures { result ≡ stop_error line stop }
{
    match stop {
        Stop::Refused(why) => TraceError::Line { line, why },
        Stop::Memory => TraceError::Memory,
    }
}

/// The set that the bytes give, which keeps the limits, or the first refused line with its reason.
#[tactic(auto, unfolding(crate::specs::SetGrammar::set_of, crate::specs::SetGrammar::after_set_lines))]
pub fn parse_set(alloc: Global, bytes: &[u8]) -> Result<SetTrace, TraceError>
    ensures parsed { IsParsed result (set_of bytes.now) }
    ensures accepted { IfOk result IsAcceptedSet }
{
    if bytes.len() > MOST_BYTES {
        return Err(TraceError::Line {
            line: 0,
            why: Why::Long,
        });
    }
    let Ok(mut reader) = SetReader::new(alloc) else {
        return Err(TraceError::Memory);
    };
    let mut room = Vec::new(alloc);
    let mut rest = lines_of(bytes);
    while let Some(text) = rest {
        let (line, after) = split_line(text);
        let number = reader.taken() + 1;
        if let Err(stop) = reader.line(alloc, &mut room, line) {
            return Err(error_at(number, stop));
        }
        rest = after;
    }
    reader.end(alloc)
}
