//! The bits for what a processor may do through an entry without a further walk, and for the causes
//! of a refused access.
ghost use Rattle.std.specs.Prelude.{◌≡◌, ◌||◌};
ghost use Rattle.hpte_fields.specs.Fields.{is_no_execute};
ghost use Rattle.c_layout.specs.Rights as spec;
ghost use Rattle.c_layout.specs.WalkEnds.{mode_of};

use crate::walking::PaprAccess;
use authority_mask::{MaskName, forbids};
use entry_model::EntryState;
use hpte_fields::{key, pp};
use storage_prot::{Want, allows};

/// The right to read.
pub const READ: u8 = 4;

/// The right to write.
pub const WRITE: u8 = 2;

/// The right to execute.
const EXECUTE: u8 = 1;

/// The causes: the page's protection bits, its N or G or the segment's N, AMR, IAMR.
const PROTECTION: u8 = 1;

const NO_EXECUTE: u8 = 2;

const AMR: u8 = 4;

const IAMR: u8 = 8;

/// Whether the entry refuses instruction fetches of the segment.
#[inline]
fn no_fetch(state: &EntryState, access: &PaprAccess) -> bool
    ensures { result ≡ (access.now.no_execute || is_no_execute state.now.dword1) }
{
    access.no_execute || hpte_fields::no_execute(state.dword1)
}

/// Whether the entry allows what an access may want, and has nothing to record of it.
#[inline]
fn has_right(state: &EntryState, access: &PaprAccess, want: Want) -> bool
    ensures { result ≡ spec.has_right state.now (mode_of access.now want) }
{
    let recorded = state.referenced && (state.changed || !matches!(want, Want::Store));
    let allowed = allows(pp(state.dword1), access.key, no_fetch(state, access), want);
    allowed && forbids(access.masks(), key(state.dword1), want).is_none() && recorded
}

/// What the entry as it is lets the processor of an access do with the page, and need not record:
/// read counts 4, write 2 and execute 1.
#[inline]
pub fn rights(state: &EntryState, access: &PaprAccess) -> u8
    ensures { result ≡ spec.rights_of state.now (mode_of access.now) }
{
    let read = if has_right(state, access, Want::Load) {
        READ
    } else {
        0
    };
    let write = if has_right(state, access, Want::Store) {
        WRITE
    } else {
        0
    };
    let execute = if has_right(state, access, Want::Fetch) {
        EXECUTE
    } else {
        0
    };
    read + write + execute
}

/// All causes for which an entry of the page refuses an access: protection counts 1, no-execute 2,
/// AMR 4 and IAMR 8.
pub fn causes(state: &EntryState, access: &PaprAccess, want: Want) -> u8
    ensures { result ≡ spec.causes_of state.now (mode_of access.now want) }
{
    let allowed = allows(pp(state.dword1), access.key, false, want);
    let protection = if allowed { 0 } else { PROTECTION };
    let refused = matches!(want, Want::Fetch) && no_fetch(state, access);
    let execution = if refused { NO_EXECUTE } else { 0 };
    let mask = match forbids(access.masks(), key(state.dword1), want) {
        None => 0,
        Some(MaskName::Amr) => AMR,
        Some(MaskName::Iamr) => IAMR,
    };
    protection + execution + mask
}
