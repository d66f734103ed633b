//! The check of an access against AMR and IAMR, by the two bits of the page's key in each.
ghost use Rattle.std.specs.Prelude.{◌≡◌, ◌<◌};
ghost use Rattle.authority_mask.specs.Authority.{field_of, forbidden, named_if, row_says};

use crate::masks::{MaskName, Masks};
use storage_prot::Want;

/// The first bit of a key in a mask.
const FIRST: u8 = 2;
/// The second bit of a key in a mask.
const SECOND: u8 = 1;

/// The mask that refuses this access to a page with this key, if one does: AMR refuses stores by
/// the key's first bit and loads by its second, and IAMR instruction fetches by the key's second
/// bit.
///
/// Power ISA Book III, virtual page class key protection.
#[tactic(auto, using(crate::proofs::Bits::first_is, crate::proofs::Bits::second_is, crate::proofs::Bits::fetch_is))]
pub fn forbids(masks: Masks, key: u8, want: Want) -> Option<MaskName>
    requires { key < 32 }
    ensures { result ≡ forbidden masks key want }
{
    match want {
        Want::Load => named(MaskName::Amr, field(masks.amr, key) & SECOND != 0),
        Want::Store => named(MaskName::Amr, field(masks.amr, key) & FIRST != 0),
        Want::Fetch => named(MaskName::Iamr, field(masks.iamr, key) & SECOND != 0),
    }
}

/// The mask, where it refuses the access.
fn named(name: MaskName, refused: bool) -> Option<MaskName>
    ensures { result ≡ named_if name refused }
{
    if refused { Some(name) } else { None }
}

/// The two bits of a key; the first counts 2.
fn field(mask: u64, key: u8) -> u8
    requires { key < 32 }
    ensures value { result ≡ field_of mask key }
    ensures small { result < 4 }
{
    (mask >> (62 - 2 * key) & 3) as u8
}
