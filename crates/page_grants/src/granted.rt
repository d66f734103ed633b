//! What a caller offers as granted memory: the machine address of a logical range. `Grants` is one
//! such.
ghost use Rattle.std.specs.Prelude.{◌≡◌, List};
ghost use Rattle.frame_grants.specs.declared.grant.Grant.{Grant};
ghost use Rattle.frame_grants.specs.Grants.{machine_range};

use frame_grants::{Grants, Kind};

/// The memory that is granted to the guest, however its caller keeps the list of grants.
pub trait GrantedMemory {
    /// The grants, in the order in which they are looked through.
    ghost grants: { Self → List Grant };

    /// The machine address of a logical range of `length` bytes, and what lies there: `None` where
    /// the range has no byte, or no single grant holds all of it.
    fn machine_of(&self, logical: u64, length: u64) -> Option<(u64, Kind)>
        ensures { result ≡ machine_range (grants self.now) logical length };
}

impl GrantedMemory for Grants {
    ghost grants = { λ granted. granted.grants };

    fn machine_of(&self, logical: u64, length: u64) -> Option<(u64, Kind)> {
        Grants::machine_of(self, logical, length)
    }
}
