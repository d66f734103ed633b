//! The check of an access against the page's protection bits, the segment's key and no-execute.
ghost use Rattle.std.specs.Prelude.{◌≡◌, ◌<◌};
ghost use Rattle.storage_prot.specs.Protection.{permission, may_read, may_write, allowed};

use crate::want::Want;

/// PP0, the highest of the three protection bits.
const PP0: u8 = 4;

/// Whether a page with the protection bits `pp` (PP0 counts 4) allows an access: `key` is the
/// segment's key for the state of the processor, and `no_execute` says that the page or its segment
/// refuses instruction fetches.
///
/// The encodings that the architecture reserves allow nothing.
pub fn allows(pp: u8, key: bool, no_execute: bool, want: Want) -> bool
    requires { pp < 8 }
    ensures { result ≡ allowed pp key no_execute want }
{
    match want {
        Want::Load => reads(pp, key),
        Want::Store => writes(pp, key),
        Want::Fetch => reads(pp, key) && !no_execute,
    }
}

// Of the values with PP0 set only one is not reserved. Without PP0, key 0 may always read, and
// key 1 wherever a bit is set.
#[tactic(auto, using(crate::proofs::Bits::reads_is))]
fn reads(pp: u8, key: bool) -> bool
    requires { pp < 8 }
    ensures { result ≡ may_read (permission pp key) }
{
    if pp & PP0 == 0 {
        !key || pp & 3 != 0
    } else {
        pp & 3 == 2 && !key
    }
}

// Without PP0, two set bits forbid writes; else key 0 may write, and key 1 only by the upper bit.
#[tactic(auto, using(crate::proofs::Bits::writes_is))]
fn writes(pp: u8, key: bool) -> bool
    requires { pp < 8 }
    ensures { result ≡ may_write (permission pp key) }
{
    pp & PP0 == 0 && pp & 3 != 3 && (!key || pp & 2 != 0)
}
