//! Loads and stores that protection bits allow under a key of a segment, as a number for C.
ghost use Rattle.std.specs.Prelude.{◌≡◌};
ghost use Rattle.papr_c.specs.Decoding.{protection_rights};

use c_layout::{READ, WRITE};
use storage_prot::{Want, allows};

/// What the protection bits of a page (PP0 counts 4) allow an access whose segment has this key:
/// read counts 4, and write 2. Bits that the architecture reserves, and numbers above 7, allow
/// nothing.
#[tactic(auto, using(crate::proofs::ReservedBits::nothing_past))]
#[unsafe(no_mangle)]
pub extern "C" fn papr_rights(protection: u8, key: bool) -> u8
    ensures { result ≡ protection_rights protection key }
{
    if protection > 7 {
        return 0;
    }
    let read = if allows(protection, key, false, Want::Load) {
        READ
    } else {
        0
    };
    let write = if allows(protection, key, false, Want::Store) {
        WRITE
    } else {
        0
    };
    read + write
}
