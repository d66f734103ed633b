//! A run line with its number and its processor, and the list of all run lines of a trace.
ghost use Rattle.std.specs.Prelude.{◌≡◌, ◌++◌, [], ◌∷◌, OnOk, OnErr};

use crate::act::Act;
use std::alloc::{AllocError, Global};
use std::marker::Model;

/// A run line: its number in the input, counted from 1, its processor (0 for a dump), and what it
/// asks for.
#[derive(Clone, Copy, PartialEq, Eq, Debug)]
pub struct TraceLine {
    /// Counted from 1.
    pub number: u32,
    /// 0 to 63.
    pub cpu: u32,
    /// What the line asks for.
    pub act: Act,
}

/// The run lines of a trace, in file order.
#[derive(Drop)]
pub struct TraceLines {
    items: Vec<TraceLine>,
}

impl Model for TraceLines {
    ghost use Rattle.std.specs.Prelude.{List};
    ghost use Rattle.trace_line.specs.declared.line.TraceLine.{TraceLine};

    ghost Value = { List TraceLine };

    ghost view = { λ l. l.items.items };
}

impl TraceLines {
    /// No line. It takes no memory; later lines are kept in `alloc`.
    pub fn new(alloc: Global) -> Self
        ensures { result ≡ [] }
    {
        TraceLines {
            items: Vec::new(alloc),
        }
    }

    /// Appends a line. Where memory ends, the list stays as it was.
    pub fn push(&mut self, line: TraceLine) -> Result<(), AllocError>
        ensures ok { OnOk result (self.new ≡ self.old ++ line ∷ []) }
        ensures err { OnErr result (self.new ≡ self.old) }
    {
        self.items.push(line)?;
        Ok(())
    }

    pub fn as_slice(&self) -> &[TraceLine]
        ensures { result.now ≡ self.now }
    {
        self.items.as_slice()
    }
}
