//! The exit statuses of the program, 0 to 6: one for each way in which a call can end.
ghost use Rattle.std.specs.Prelude.{◌≡◌};
ghost use Rattle.papr_edge.specs.Status.{status_number};

/// How a run ended.
#[derive(Clone, Copy, PartialEq, Eq, Debug)]
pub enum Status {
    /// The text was written whole.
    Done,
    /// The words are none of the listed forms.
    Usage,
    /// The input is refused.
    Refused,
    /// The source failed.
    ReadFault,
    /// The sink failed.
    WriteFault,
    /// There is not enough memory.
    Memory,
    /// The text that was judged is not that of a good run.
    CheckNo,
}

impl Status {
    /// The exit status of the process.
    pub fn number(&self) -> u8
        ensures { result ≡ status_number self.now }
    {
        match self {
            Status::Done => 0,
            Status::Usage => 1,
            Status::Refused => 2,
            Status::ReadFault => 3,
            Status::WriteFault => 4,
            Status::Memory => 5,
            Status::CheckNo => 6,
        }
    }
}
