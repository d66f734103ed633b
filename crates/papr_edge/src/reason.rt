//! The reasons that the line of a refusal can give, each as the word that is written: those of a
//! trace, and a missing line `replies`.
ghost use Rattle.std.specs.Prelude.{◌≡◌};
ghost use Rattle.papr_edge.specs.Inputs.{reason_word};

use trace_read::Why;

/// Why an input is refused.
#[derive(Clone, Copy, PartialEq, Eq, Debug)]
pub enum Reason {
    /// A line of its trace is refused, or `begin` is missing.
    Trace(Why),
    /// Under `check`, no line `replies` ends the trace.
    NoReplies,
}

impl Reason {
    /// The word that the program writes.
    pub fn word(&self) -> &'static str
        ensures { result.now ≡ reason_word self.now }
    {
        match self {
            Reason::Trace(why) => why.word(),
            Reason::NoReplies => "replies",
        }
    }
}
