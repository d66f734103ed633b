//! How L and the low bits of the real page number are read as a base and an actual page size.
ghost use Rattle.std.specs.Prelude.{◌≡◌, ◌≢◌, ◌≤◌, IfSome, Some, Contains, IsTrue, bit_and};
ghost use Rattle.page_sizes.specs.Sizes.{size_of, large_rows, Row, row_fits, size_in};

use crate::size::PageSize;

/// L, in doubleword 0: the page is larger than 4 KB.
const LARGE: u64 = 0x04;

/// The page size that an entry's doublewords encode, or `None` where they encode none. No two
/// rows of the table accept the same doublewords, so the row that fits says the size.
pub fn decode(dword0: u64, dword1: u64) -> Option<PageSize>
    ensures value { result ≡ size_of dword0 dword1 }
    ensures nested { IfSome result (λ size. size.base ≤ size.actual) }
    ensures one { bit_and dword0 0x04 ≢ 0
        → (row : Row)
        → Contains large_rows row
        → IsTrue (row_fits dword1 row)
        → result ≡ Some (size_in row) }
{
    let low = dword1 >> 12;
    let (base, actual) = if dword0 & LARGE == 0 {
        (12, 12)
    } else if low & 0xF == 1 {
        (16, 16)
    } else if low & 0xF == 7 {
        (12, 16)
    } else if low & 0xFFF == 0 {
        (24, 24)
    } else if low & 0xFFF == 0x38 {
        (12, 24)
    } else if low & 0xFFF == 8 {
        (16, 24)
    } else if low & 0x3F_FFFF == 3 {
        (34, 34)
    } else {
        return None;
    };
    Some(PageSize { base, actual })
}
