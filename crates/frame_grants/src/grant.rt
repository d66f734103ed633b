//! One grant: a range of logical addresses, the machine range that it is mapped to, and what is
//! there.
ghost use Rattle.std.specs.Prelude.{◌≡◌};
ghost use Rattle.frame_grants.specs.Grants.{no_grant, is_aligned, ends_past, meets_machine, overlaps, holds};

use crate::range::{ends_past_top, range_within, ranges_meet};
use pool_range::PAGE_BYTES;

/// What a grant gives access to.
#[derive(Clone, Copy, PartialEq, Eq, Debug)]
pub enum Kind {
    /// Main storage.
    Ram,
    /// The registers of a device.
    Io,
}

/// A range of the guest's logical addresses and the machine range that it is mapped to, in bytes.
#[derive(Clone, Copy, PartialEq, Eq, Debug)]
pub struct Grant {
    /// The first logical address.
    pub logical: u64,
    /// The machine address of the first byte.
    pub machine: u64,
    /// The length of both ranges.
    pub length: u64,
    /// What is in the machine range.
    pub kind: Kind,
}

impl Default for Kind {
    ghost use Rattle.frame_grants.specs.declared.grant.Kind.TheVariants.{Ram};

    ghost is_default = { λ kind. kind ≡ Ram };

    fn default() -> Self {
        Kind::Ram
    }
}

/// No byte, at address 0: what an `ArrayVec` holds past its end.
impl Default for Grant {
    ghost is_default = { λ grant. grant ≡ no_grant };

    fn default() -> Self {
        Grant {
            logical: 0,
            machine: 0,
            length: 0,
            kind: Kind::Ram,
        }
    }
}

impl Grant {
    /// Whether both addresses and the length are multiples of 4,096.
    pub(crate) fn is_aligned(&self) -> bool
        ensures { result ≡ is_aligned self.now }
    {
        self.logical % PAGE_BYTES == 0
            && self.machine % PAGE_BYTES == 0
            && self.length % PAGE_BYTES == 0
    }

    /// Whether the logical or the machine range ends above `2^60`.
    pub(crate) fn ends_past(&self) -> bool
        ensures { result ≡ ends_past self.now }
    {
        ends_past_top(self.logical, self.length) || ends_past_top(self.machine, self.length)
    }

    /// Whether the machine ranges meet.
    pub fn meets_machine(&self, other: &Grant) -> bool
        ensures { result ≡ meets_machine self.now other.now }
    {
        ranges_meet(self.machine, self.length, other.machine, other.length)
    }

    /// Whether the logical ranges meet, or the machine ranges.
    pub(crate) fn overlaps(&self, other: &Grant) -> bool
        ensures { result ≡ overlaps self.now other.now }
    {
        ranges_meet(self.logical, self.length, other.logical, other.length)
            || self.meets_machine(other)
    }

    /// Whether the whole logical range lies in the grant.
    pub(crate) fn holds(&self, logical: u64, length: u64) -> bool
        ensures { result ≡ holds logical length self.now }
    {
        range_within(logical, length, self.logical, self.length)
    }
}
