//! The test of a page table entry against the grants: its whole page is in one grant, and its
//! storage control bits suit main storage or a device there.
ghost use Rattle.std.specs.Prelude.{◌≡◌, IfSome, Some};
ghost use Rattle.hpte_fields.specs.Fields.{normal_words};
ghost use Rattle.page_grants.specs.Suited as suited;

use crate::granted::GrantedMemory;
use frame_grants::Kind;
use hpte_fields::{frame, normal, wimg};
use page_sizes::decode;

/// I, M, G and W as `hpte_fields::wimg` counts them.
const WRITE_THROUGH: u8 = 8;

const INHIBITED: u8 = 4;

const COHERENT: u8 = 2;

const GUARDED: u8 = 1;

/// Whether the storage control bits suit what the page maps.
fn suits_kind(wimg: u8, kind: Kind) -> bool
    ensures { result ≡ suited.suits_kind wimg kind }
{
    match kind {
        Kind::Ram => wimg == COHERENT || wimg == WRITE_THROUGH | INHIBITED | COHERENT,
        Kind::Io => wimg == INHIBITED || wimg == INHIBITED | GUARDED,
    }
}

/// Whether one grant holds the whole page that the doublewords map, and its storage control bits
/// suit it.
#[tactic(auto, unfolding(crate::specs::Suited::suits_grants))]
pub fn suits_grants<G: GrantedMemory>(grants: &G, dword0: u64, dword1: u64) -> bool
    ensures { result ≡ suited.suits_grants (G.grants grants.now) dword0 dword1 }
{
    let Some(size) = decode(dword0, dword1) else {
        return false;
    };
    match grants.machine_of(frame(dword1, size.actual), 1 << size.actual) {
        Some((_, kind)) => suits_kind(wimg(dword1), kind),
        None => false,
    }
}

/// The doublewords that H_ENTER stores for those of a guest. `None` where these can't be stored, or
/// where no single grant holds the whole page that they map with these storage control bits. Of
/// what it stores H_ENTER stores the same.
pub fn entered_words<G: GrantedMemory>(grants: &G, pteh: u64, ptel: u64) -> Option<(u64, u64)>
    ensures value { result ≡ suited.entered_words (G.grants grants.now) pteh ptel }
    ensures again { IfSome result (λ w. normal_words w.0 w.1 ≡ Some w) }
{
    let (dword0, dword1) = normal(pteh, ptel)?;
    if suits_grants(grants, dword0, dword1) {
        Some((dword0, dword1))
    } else {
        None
    }
}
