//! A refusal or want of memory, as the one error of the functions that read a line.
use crate::why::Why;
use std::alloc::AllocError;

/// Why the reading of a line ends.
#[derive(Clone, Copy, PartialEq, Eq, Debug)]
pub enum Stop {
    /// The line is refused.
    Refused(Why),
    /// There is not enough memory.
    Memory,
}

impl From<Why> for Stop {
    ghost use Rattle.std.specs.Prelude.{◌≡◌};
    ghost use Rattle.trace_read.specs.declared.stop.Stop.TheVariants.{Refused};

    ghost from_gives = { λ why stop. stop ≡ Refused why };

    fn from(why: Why) -> Self {
        Stop::Refused(why)
    }
}

impl From<AllocError> for Stop {
    ghost use Rattle.std.specs.Prelude.{◌≡◌};
    ghost use Rattle.trace_read.specs.declared.stop.Stop.TheVariants.{Memory};

    ghost from_gives = { λ _ stop. stop ≡ Memory };

    fn from(_: AllocError) -> Self {
        Stop::Memory
    }
}
