//! The fields that are read from doubleword 0 of a page table entry: the tag, H, the bit of bolted
//! entries, and B.
ghost use Rattle.std.specs.Prelude.{◌≡◌};
ghost use Rattle.hpte_fields.specs.Fields.{tag_field, is_secondary, is_bolted, is_one_tb};

use crate::bits::{BOLTED, SECONDARY, TAG};

/// B and the abbreviated virtual page number, with the low seven bits 0.
pub fn tag_of(dword0: u64) -> u64
    ensures { result ≡ tag_field dword0 }
{
    dword0 & TAG
}

/// Whether the entry is in its page's secondary group (H).
pub fn secondary(dword0: u64) -> bool
    ensures { result ≡ is_secondary dword0 }
{
    dword0 & SECONDARY == SECONDARY
}

/// Whether the guest marked the entry as one that a resize keeps.
pub fn bolted(dword0: u64) -> bool
    ensures { result ≡ is_bolted dword0 }
{
    dword0 & BOLTED == BOLTED
}

/// Whether the segment is one of 1 TB (B is 1).
pub fn one_tb(dword0: u64) -> bool
    ensures { result ≡ is_one_tb dword0 }
{
    dword0 >> 62 == 1
}
