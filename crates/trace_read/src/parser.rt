//! A whole input read as one trace, within the limits of bytes and lines, up to its first refused
//! line.
ghost use Rattle.std.specs.Prelude.{◌≡◌, IfOk};
ghost use Rattle.trace_read.specs.Grammar.{trace_of};
ghost use Rattle.trace_read.specs.Read.{IsParsed, error_of};
ghost use Rattle.trace_read.specs.Trace.{IsAccepted};

use crate::given::LineRefused;
use crate::lines::{lines_of, split_line};
use crate::trace::Trace;
use crate::trace_reader::{MOST_LINES, POOL_BASE, POOL_ORDER, TraceReader};
use crate::why::Why;
use std::alloc::Global;

/// The most bytes that an input may have.
pub const MOST_BYTES: usize = 16_777_216;

/// Why an input gives no trace.
#[derive(Debug, Drop)]
pub enum TraceError {
    /// The first refused line, and the reason.
    Line { line: u32, why: Why },
    /// There is not enough memory.
    Memory,
}

fn error_at(line: u32, refused: LineRefused) -> TraceError
    ensures { result ≡ error_of line refused }
{
    match refused {
        LineRefused::Refused { why, grant: _ } => TraceError::Line { line, why },
        LineRefused::Memory => TraceError::Memory,
    }
}

/// The trace that the bytes give, which keeps the limits, or the first refused line with its
/// reason.
#[tactic(auto, unfolding(crate::specs::Grammar::trace_of, crate::specs::Grammar::after_lines))]
pub fn parse(alloc: Global, bytes: &[u8]) -> Result<Trace, TraceError>
    ensures parsed { IsParsed result (trace_of bytes.now) }
    ensures accepted { IfOk result IsAccepted }
{
    if bytes.len() > MOST_BYTES {
        return Err(TraceError::Line {
            line: 0,
            why: Why::Long,
        });
    }
    let mut reader = TraceReader::new(alloc, POOL_BASE, POOL_ORDER);
    let mut rest = lines_of(bytes);
    while let Some(text) = rest {
        let (line, after) = split_line(text);
        let number = reader.taken() + 1;
        if number > MOST_LINES {
            return Err(TraceError::Line {
                line: number,
                why: Why::Lines,
            });
        }
        if let Err(refused) = reader.line(number, line) {
            return Err(error_at(number, refused));
        }
        rest = after;
    }
    let line = reader.taken() + 1;
    match reader.end() {
        Ok(trace) => Ok(trace),
        Err(why) => Err(TraceError::Line { line, why }),
    }
}
