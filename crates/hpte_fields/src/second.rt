//! The fields that are read from doubleword 1 of a page table entry, and its change by H_PROTECT.
ghost use Rattle.std.specs.Prelude.{◌≡◌, ◌<◌};
ghost use Rattle.hpte_fields.specs.Fields.{wimg_of, frame_of, pp_of, key_of, is_no_execute, protected_word};

/// The real page number, as the address of its first 4 KB.
const REAL_PAGE_NUMBER: u64 = 0x0FFF_FFFF_FFFF_F000;

/// G and N.
const GUARDED_OR_NO_EXECUTE: u64 = 0x0C;

/// The fields that H_PROTECT replaces: PP0, key high, key low, N and PP.
const PROTECTION: u64 = 0xB000_0000_0000_0E07;

/// The real address of the page's first byte, where the page has `2^actual` bytes.
pub fn frame(dword1: u64, actual: u8) -> u64
    requires { actual < 60 }
    ensures { result ≡ frame_of dword1 actual }
{
    let address = dword1 & REAL_PAGE_NUMBER;
    address >> actual << actual
}

/// The three protection bits: PP0 counts 4, PP below it.
pub fn pp(dword1: u64) -> u8
    ensures { result ≡ pp_of dword1 }
{
    ((dword1 >> 63 << 2) | (dword1 & 3)) as u8
}

/// The virtual page class key, of five bits.
pub fn key(dword1: u64) -> u8
    ensures { result ≡ key_of dword1 }
{
    ((dword1 >> 60 & 3) << 3 | (dword1 >> 9 & 7)) as u8
}

/// The storage control bits as a number: W counts 8, I 4, M 2, G 1.
pub fn wimg(dword1: u64) -> u8
    ensures { result ≡ wimg_of dword1 }
{
    (dword1 >> 3 & 0xF) as u8
}

/// Whether the page refuses instruction fetches: N or G is set.
pub fn no_execute(dword1: u64) -> bool
    ensures { result ≡ is_no_execute dword1 }
{
    dword1 & GUARDED_OR_NO_EXECUTE != 0
}

/// Doubleword 1 after H_PROTECT with these flags. PP0 comes from flag bit `0x100`, key high from
/// `0x3000`, key low from `0xE00`, N from `0x4` and PP from `0x3`; every other bit stays.
pub fn protected(dword1: u64, flags: u64) -> u64
    ensures { result ≡ protected_word dword1 flags }
{
    dword1 & !PROTECTION | (flags & 0x100) << 55 | (flags & 0x3000) << 48 | flags & 0xE07
}
