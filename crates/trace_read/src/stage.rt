//! The order of a trace's lines: `order`, `limit`, `cpus`, `pool`, grants, entries, windows,
//! `begin`, and then run lines.
ghost use Rattle.std.specs.Prelude.{◌≡◌};
ghost use Rattle.trace_read.specs.Places.{is_running, comes_at};

use crate::forms::Form;

/// The first form of line that may still come. Configuration lines come in this order.
#[derive(Clone, Copy)]
pub enum Stage {
    /// `order`
    Order,
    /// `limit`
    Limit,
    /// `cpus`
    Cpus,
    /// `pool`
    Pool,
    /// `ram` and `io`
    Grants,
    /// `entry`
    Entries,
    /// `window` and `begin`
    Windows,
    /// Run lines: the configuration has ended.
    Lines,
}

impl Stage {
    /// Whether the configuration has ended.
    pub fn is_running(&self) -> bool
        ensures { result ≡ is_running self.now }
    {
        matches!(self, Stage::Lines)
    }

    /// Whether a line of this form may come.
    pub fn admits(&self, form: Form) -> bool
        ensures { result ≡ comes_at form self.now }
    {
        match form {
            Form::Order => matches!(self, Stage::Order),
            Form::Limit => matches!(self, Stage::Order | Stage::Limit),
            Form::Cpus => matches!(self, Stage::Order | Stage::Limit | Stage::Cpus),
            Form::Pool => !matches!(
                self,
                Stage::Grants | Stage::Entries | Stage::Windows | Stage::Lines
            ),
            Form::Grant(_) => !matches!(self, Stage::Entries | Stage::Windows | Stage::Lines),
            Form::Entry => !matches!(self, Stage::Windows | Stage::Lines),
            Form::Window | Form::Begin => !self.is_running(),
            Form::Run(_) | Form::Dump => self.is_running(),
        }
    }
}
