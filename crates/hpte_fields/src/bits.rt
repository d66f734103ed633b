//! Masks of V, H, the software bit, the tag, R, C and the reserved bit in an entry's doublewords.

/// V, in doubleword 0: the entry is valid.
pub const VALID: u64 = 0x01;

/// H, in doubleword 0: the entry is in its page's secondary group.
pub const SECONDARY: u64 = 0x02;

/// The software bit of doubleword 0 by which a guest marks an entry that is to stay.
pub const BOLTED: u64 = 0x10;

/// The bits of doubleword 0 that hold B and the abbreviated virtual page number.
pub const TAG: u64 = 0xFFFF_FFFF_FFFF_FF80;

/// R, in doubleword 1: the page was referenced.
pub const REFERENCED: u64 = 0x100;

/// C, in doubleword 1: the page was changed.
pub const CHANGED: u64 = 0x80;

/// The bit of doubleword 1 that no field uses, and which H_ENTER clears.
pub const RESERVED: u64 = 0x4000_0000_0000_0000;
