//! The kinds of run lines: hypervisor calls, accesses of processors and devices, changes of the
//! segment lookaside buffer and of masks, and dumps.
ghost use Rattle.std.specs.Prelude.{◌≡◌};

use authority_mask::MaskName;
use papr_codes::Hcall;
use storage_prot::Want;

/// What a run line asks for.
#[derive(Clone, Copy, PartialEq, Eq, Debug)]
pub enum Act {
    /// A hypervisor call by its number, with its arguments; those that the line leaves out are 0.
    /// `spelt` says that the line named the call.
    Call {
        number: u64,
        args: [u64; 8],
        spelt: bool,
    },
    /// An access to memory at an effective address; `user` is problem state.
    Access {
        want: Want,
        ea: u64,
        user: bool,
    },
    /// The instruction `slbmte`, with its two words.
    SlbMte {
        rb: u64,
        rs: u64,
    },
    /// Clears the whole segment lookaside buffer.
    SlbClear,
    /// Sets an authority mask of the processor.
    SetMask {
        name: MaskName,
        value: u64,
    },
    /// An access of a device, a read or a write, at a bus address of the DMA window with this
    /// number.
    Device {
        write: bool,
        liobn: u64,
        ioba: u64,
    },
    /// Shows the table.
    Dump,
}

impl Act {
    ghost use Rattle.trace_line.specs.Lines.{is_quiet, is_dump, bus_of};

    /// Whether no call of a processor runs at this line: the resize calls, by name or by number,
    /// and dumps.
    #[tactic(auto, unfolding(crate::specs::Lines::is_quiet))]
    pub fn is_quiet(&self) -> bool
        ensures { result ≡ is_quiet self.now }
    {
        match self {
            Act::Call { number, .. } => {
                matches!(Hcall::of_number(*number), Hcall::Prepare | Hcall::Commit)
            }
            Act::Dump => true,
            _ => false,
        }
    }

    /// Whether the line shows the table.
    pub fn is_dump(&self) -> bool
        ensures { result ≡ is_dump self.now }
    {
        matches!(self, Act::Dump)
    }
    /// The number of the DMA window that the line names: that of a TCE call, by name or by number,
    /// or of a device's access. `None` for any other line.
    #[tactic(auto, unfolding(crate::specs::Lines::bus_of))]
    pub fn bus(&self) -> Option<u64>
        ensures { result ≡ bus_of self.now }
    {
        match *self {
            Act::Call { number, args, .. } => match Hcall::of_number(number) {
                Hcall::PutTce | Hcall::GetTce => Some(args[0]),
                _ => None,
            },
            Act::Device { liobn, .. } => Some(liobn),
            _ => None,
        }
    }
}
