//! Comparisons of address ranges by their starts and lengths.
ghost use Rattle.std.specs.Prelude.{◌≡◌, ◌+◌, ◌^◌, ◌<◌, ◌↔◌, IsTrue, nat_lt};
ghost use Rattle.frame_grants.specs.Ranges.{ShareAddress, ranges_meet, range_within};
ghost use Rattle.pool_range.specs.Ranges.{address_end};

use pool_range::ADDRESS_END;

// The end of a range may be past 2^64, so the tests below never compute it.

fn is_below_end(address: u64, start: u64, length: u64) -> bool
    ensures { result ≡ nat_lt address (start + length) }
{
    address < start || address - start < length
}

/// Whether two ranges meet, each given by its start and its length.
pub fn ranges_meet(start: u64, length: u64, other: u64, other_length: u64) -> bool
    ensures value { result ≡ ranges_meet start length other other_length }
    ensures share { 0 < length
        → 0 < other_length
        → (IsTrue result ↔ ShareAddress start length other other_length) }
{
    is_below_end(start, other, other_length) && is_below_end(other, start, length)
}

/// Whether the first range lies wholly within the second.
pub fn range_within(start: u64, length: u64, outer: u64, outer_length: u64) -> bool
    ensures { result ≡ range_within start length outer outer_length }
{
    outer <= start && start - outer <= outer_length && length <= outer_length - (start - outer)
}

/// Whether a range ends above `2^60`.
pub fn ends_past_top(start: u64, length: u64) -> bool
    ensures { result ≡ nat_lt address_end (start + length) }
{
    start > ADDRESS_END || length > ADDRESS_END - start
}
