//! The result of reading: a configuration and run lines, whose types keep the limits of a trace.
use crate::config::Config;
use std::marker::Model;
use trace_line::TraceLines;

/// An accepted trace: the configuration and the run lines.
#[derive(Drop)]
pub struct Trace {
    /// What the lines before `begin` set.
    pub config: Config,
    /// The lines after `begin`, without remarks.
    pub lines: TraceLines,
}

impl Model for Trace {
    ghost use Rattle.trace_line.specs.Lines.{IsTrace};
    ghost use Rattle.trace_read.specs.Trace.{AcceptedTrace};

    ghost Value = { AcceptedTrace };

    ghost view = { λ t. record { config = t.config; lines = t.lines } };

    ghost invariant = { λ t. IsTrace t.config.cpus t.lines };
}

impl Trace {
    ghost use Rattle.trace_read.specs.Trace.{IsAccepted};

    /// States what each trace has, and does nothing else.
    pub fn keeps_limits(&self)
        ensures { IsAccepted self.now }
    {
        let _limit = self.config.limit;
        let _grants = self.config.grants.list();
        let _windows = self.config.windows.as_slice();
        let _lines = &self.lines;
    }
}
