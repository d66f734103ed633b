//! The refusals of a grant, in the order in which they are tried, each with its message.

/// Why a grant is refused.
#[derive(Clone, Copy, PartialEq, Eq, Debug, thiserror::Error)]
pub enum GrantError {
    /// The grant has no byte.
    #[error("the grant is empty")]
    Empty,
    /// An address or the length is no multiple of 4,096.
    #[error("the grant is not aligned to 4,096 bytes")]
    Unaligned,
    /// A range ends above `2^60`.
    #[error("the grant ends above 2^60")]
    Past,
    /// There are 64 grants already.
    #[error("there are 64 grants already")]
    TooMany,
    /// The logical or the machine range meets that of another grant.
    #[error("the grant meets another grant")]
    Overlap,
    /// The machine range meets the pool of page tables.
    #[error("the grant meets the pool of page tables")]
    PoolOverlap,
}
