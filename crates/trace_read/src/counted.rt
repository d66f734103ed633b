//! The run lines of a trace while they are read, kept within 256 quiet lines and 16 dumps, which
//! are quiet lines too.
ghost use Rattle.std.specs.Prelude.{◌≡◌, ◌++◌, [], ◌∷◌, OnOk, OnErr, Ok, length};
ghost use Rattle.trace_read.specs.Counts.{may_add, AreFew};

use crate::why::Why;
use std::alloc::{AllocError, Global};
use std::marker::Model;
use trace_line::{Act, TraceLine, TraceLines};

/// The most dumps and quiet lines that a trace may have; dumps are quiet lines too.
const MOST_DUMPS: u32 = 16;

const MOST_QUIET: u32 = 256;

/// The run lines so far, with the counts of their quiet lines and of their dumps.
#[derive(Drop)]
pub struct CountedLines {
    lines: TraceLines,
    quiet: u32,
    dumps: u32,
}

impl Model for CountedLines {
    ghost use Rattle.std.specs.Prelude.{List};
    ghost use Rattle.trace_line.specs.declared.line.TraceLine.{TraceLine};
    ghost use Rattle.trace_read.specs.Counts.{IsCounted};

    ghost Value = { List TraceLine };

    ghost view = { λ c. c.lines };

    ghost invariant = { λ c. IsCounted c.quiet c.dumps c.lines };
}

impl CountedLines {
    /// A list without lines.
    pub fn new(alloc: Global) -> Self
        ensures { result ≡ [] }
    {
        CountedLines {
            lines: TraceLines::new(alloc),
            quiet: 0,
            dumps: 0,
        }
    }

    /// Whether a line that asks for this may come next.
    #[tactic(auto, unfolding(crate::specs::Counts::may_add))]
    pub fn check(&self, act: &Act) -> Result<(), Why>
        ensures { result ≡ may_add self.now act.now }
    {
        if act.is_dump() && self.dumps >= MOST_DUMPS {
            return Err(Why::Dumps);
        }
        if act.is_quiet() && self.quiet >= MOST_QUIET {
            return Err(Why::Quiet);
        }
        Ok(())
    }

    /// Appends a line.
    #[tactic(auto, unfolding(crate::specs::Counts::may_add))]
    pub fn push(&mut self, line: TraceLine) -> Result<(), AllocError>
        requires { may_add self.old line.act ≡ Ok tt }
        ensures ok { OnOk result (self.new ≡ self.old ++ line ∷ []) }
        ensures few { OnOk result (AreFew self.new) }
        ensures err { OnErr result (self.new ≡ self.old) }
    {
        self.lines.push(line)?;
        if line.act.is_quiet() {
            self.quiet += 1;
        }
        if line.act.is_dump() {
            self.dumps += 1;
        }
        Ok(())
    }

    /// How many lines there are.
    pub fn count(&self) -> usize
        ensures { result ≡ length self.now }
    {
        self.lines.as_slice().len()
    }

    /// The lines, without their counts.
    pub fn into_lines(self) -> TraceLines
        ensures { result ≡ self }
    {
        let CountedLines {
            lines,
            quiet: _,
            dumps: _,
        } = self;
        lines
    }
}
