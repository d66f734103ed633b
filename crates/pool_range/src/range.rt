//! The machine range for page tables, checked once: its order is 18 to 34, it is aligned to its
//! size, and it ends at 2^60 or below.
ghost use Rattle.std.specs.Prelude.{◌≡◌, ◌≤◌, ◌^◌, Some, None, IfOk, MatchResult};
ghost use Rattle.pool_range.specs.Ranges.{IsPoolRange, range_refusal, greatest_pool_order};

/// The end of the guest's logical addresses and of machine addresses: 2^60.
pub const ADDRESS_END: u64 = 1 << 60;

/// The bytes of a page: grants consist of whole pages, and so do DMA windows.
pub const PAGE_BYTES: u64 = 4096;

/// The order of the smallest range, and of the smallest table: it has 2^18 bytes.
pub const LEAST_ORDER: u8 = 18;

/// The order of the largest range, and of the largest table: it has 2^34 bytes, and a table of it
/// 2^30 entries, which a `u32` counts.
pub const GREATEST_ORDER: u8 = 34;

/// Why two numbers are no range for page tables.
#[derive(Clone, Copy, PartialEq, Eq, Debug)]
pub enum RangeError {
    /// The order is not from 18 to 34.
    Order,
    /// The base is not a multiple of the size.
    Unaligned,
    /// The range ends above 2^60.
    Past,
}

/// The machine range of `2^order` bytes from `base` that is kept for page tables.
#[derive(Clone, Copy)]
pub struct PoolRange {
    /// The machine address at which it begins.
    pub base: u64,
    /// The binary logarithm of its size in bytes.
    pub order: u8,
    ghost in_range: { IsPoolRange base order },
}

impl PoolRange {
    /// The range of these numbers, or why there is none: the refusals are tried in their order.
    #[tactic(auto, unfolding(crate::specs::Ranges::range_refusal))]
    pub fn new(base: u64, order: u64) -> Result<PoolRange, RangeError>
        ensures told { MatchResult
            result
            (λ _. range_refusal base order ≡ None)
            (λ e. range_refusal base order ≡ Some e) }
        ensures base { IfOk result (λ range. range.base ≡ base) }
        ensures order { IfOk result (λ range. range.order ≡ order) }
    {
        if order < u64::from(LEAST_ORDER) || order > u64::from(GREATEST_ORDER) {
            return Err(RangeError::Order);
        }
        let size = size_of(order);
        if base % size != 0 {
            return Err(RangeError::Unaligned);
        }
        if base > ADDRESS_END - size {
            return Err(RangeError::Past);
        }
        Ok(PoolRange::accepted(base, order as u8))
    }

    /// The range of numbers that were tested before.
    pub fn accepted(base: u64, order: u8) -> PoolRange
        requires { IsPoolRange base order }
        ensures base { result.base ≡ base }
        ensures order { result.order ≡ order }
    {
        PoolRange { base, order }
    }
}

// How many bytes a range has.
fn size_of(order: u64) -> u64
    requires { order ≤ greatest_pool_order }
    ensures size { result ≡ 2 ^ order }
    ensures most { result ≤ 2 ^ greatest_pool_order }
{
    1 << order
}
