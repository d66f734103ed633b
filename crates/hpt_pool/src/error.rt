//! The reasons why a pool can't be made, each with its message: its range is unsuitable, or memory
//! is lacking.

/// Why there is no such pool.
#[derive(Clone, Copy, PartialEq, Eq, Debug, thiserror::Error)]
pub enum PoolError {
    /// The pool would have less than `2^18` or more than `2^34` bytes.
    #[error("the pool's order is not 18 to 34")]
    Order,
    /// The pool does not begin at a multiple of its size.
    #[error("the pool is not aligned to its size")]
    Unaligned,
    /// The pool ends above `2^60`.
    #[error("the pool ends above 2^60")]
    Past,
    /// There is no memory to keep the pool's tree in.
    #[error("out of memory")]
    Memory,
}
