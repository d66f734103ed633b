//! The conversion of an entry's doublewords to 32 hexadecimal digits and back, in either layout.
ghost use Rattle.std.specs.Prelude.{◌≡◌};
ghost use Rattle.table_image.specs.Layouts.{digits_of_words, words_of_digits, laid_out, read_words, entry_digits, entry_words};

use crate::layout::Layout;
use byteorder::{BigEndian, ByteOrder};
use hex::{FromHex, encode_to_slice};
use hpte_fields::RESERVED;

/// The bits of doubleword 0 below B that the newer layout doesn't hold.
const UNHELD: u64 = 0x3FF0_0000_0000_0000;

/// The bits of doubleword 1 that hold B in the newer layout.
const SEGMENT_BITS: u64 = 0x0C00_0000_0000_0000;

/// The bits of doubleword 0 that the newer layout leaves out.
const LEFT_OUT: u64 = 0xFFF0_0000_0000_0000;

/// An entry's doublewords in this layout: none where it can't hold them.
pub fn in_layout(layout: Layout, dword0: u64, dword1: u64) -> Option<(u64, u64)>
    ensures { result ≡ laid_out layout (dword0, dword1) }
{
    match layout {
        Layout::Old => Some((dword0, dword1)),
        Layout::New => {
            if dword0 & UNHELD != 0 || dword1 & SEGMENT_BITS != 0 {
                return None;
            }
            let segment = dword0 >> 62;
            Some((dword0 & !LEFT_OUT, dword1 | segment << 58))
        }
    }
}

/// The older layout's doublewords of those that were read in this layout: none where a bit is set
/// that H_ENTER clears, or one that the newer layout leaves out.
pub fn from_layout(layout: Layout, dword0: u64, dword1: u64) -> Option<(u64, u64)>
    ensures { result ≡ read_words layout (dword0, dword1) }
{
    if dword1 & RESERVED != 0 {
        return None;
    }
    match layout {
        Layout::Old => Some((dword0, dword1)),
        Layout::New => {
            if dword0 & LEFT_OUT != 0 {
                return None;
            }
            let segment = dword1 >> 58 & 3;
            Some((dword0 | segment << 62, dword1 & !SEGMENT_BITS))
        }
    }
}

/// Two doublewords as digits, the most significant first.
fn spell(dword0: u64, dword1: u64) -> [u8; 32]
    ensures { result ≡ digits_of_words (dword0, dword1) }
{
    let mut bytes = [0u8; 16];
    BigEndian::write_u64(&mut bytes, dword0);
    BigEndian::write_u64(&mut bytes[8..], dword1);
    let mut digits = [0u8; 32];
    encode_to_slice(&bytes, &mut digits).unwrap();
    digits
}

/// The doublewords that digits of either case spell.
fn read_digits(digits: &[u8; 32]) -> Option<(u64, u64)>
    ensures { result ≡ words_of_digits digits.now }
{
    let bytes = <[u8; 16] as FromHex>::from_hex(digits.as_slice()).ok()?;
    Some((
        BigEndian::read_u64(&bytes),
        BigEndian::read_u64(&bytes[8..]),
    ))
}

/// The 32 lower-case hexadecimal digits of an entry's doublewords in this layout: doubleword 0,
/// then doubleword 1 with R and C, each as eight bytes, the most significant first. `dword0` and
/// `dword1` are in the older layout. `None` where the layout can't hold them.
#[tactic(auto, unfolding(crate::specs::Layouts::entry_digits))]
pub fn digits_of(layout: Layout, dword0: u64, dword1: u64) -> Option<[u8; 32]>
    ensures { result ≡ entry_digits layout (dword0, dword1) }
{
    let (first, second) = in_layout(layout, dword0, dword1)?;
    Some(spell(first, second))
}

/// The doublewords, in the older layout, that 32 digits of this layout spell, of either case.
/// `None` where a byte is no hexadecimal digit, where doubleword 1 has the bit that H_ENTER clears,
/// or where doubleword 0 has, in the newer layout, a bit past its 52.
#[tactic(auto, unfolding(crate::specs::Layouts::entry_words))]
pub fn words_of(layout: Layout, digits: &[u8; 32]) -> Option<(u64, u64)>
    ensures { result ≡ entry_words layout digits.now }
{
    let (first, second) = read_digits(digits)?;
    from_layout(layout, first, second)
}
