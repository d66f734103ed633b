//! The logical address that an access reaches by an entry, whose actual page size says how many
//! bits are those of the effective address.
ghost use Rattle.std.specs.Prelude.{◌≡◌, ◌≤◌, ◌<◌, ◌^◌, ◌%◌};
ghost use Rattle.hpt_walk.specs.Access as access;

use entry_model::EntryState;
use hpte_fields::frame;
use page_sizes::decode;

/// The binary logarithm of the size of a page of 4 KB.
const SMALL: u8 = 12;

/// The logical address of an access by an entry in this state: the frame of the real page, and the
/// bits of the effective address below the page's size.
pub fn logical_of(ea: u64, state: &EntryState) -> u64
    ensures { result ≡ access.logical_of ea state.now }
{
    let actual = actual_size(state);
    frame(state.dword1, actual) + offset(ea, actual)
}

fn offset(ea: u64, actual: u8) -> u64
    requires { actual ≤ 34 }
    ensures value { result ≡ ea % 2 ^ actual }
    ensures small { result < 2 ^ 34 }
{
    ea & ((1 << actual) - 1)
}

/// The binary logarithm of the size of the real page.
fn actual_size(state: &EntryState) -> u8
    ensures value { result ≡ access.actual_size state.now }
    ensures in_range { result ≤ 34 }
{
    match decode(state.dword0, state.dword1) {
        None => SMALL,
        Some(size) => size.actual,
    }
}
