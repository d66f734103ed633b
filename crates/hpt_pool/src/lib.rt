//! The memory of page tables: a pool that is handed out in blocks whose size is a power of two.
//!
//! A hashed page table of `2^k` bytes begins at a multiple of `2^k` (Power ISA Book III, the
//! table's base and size in SDR1 or in a partition table entry), so each block is aligned to its
//! size.
//!
//! Main contracts: `take` is the lowest aligned place that overlaps no taken block, or none if
//! there is none; `give`.
#![tactic(auto)]

mod error;
mod pool;
mod spot;
mod tree;

pub use error::PoolError;
pub use pool::Pool;
