//! The range of machine memory that is kept for page tables: which numbers can be one, tested once.
//!
//! LoPAR leaves to the hypervisor where a partition's page table lies. Here tables are blocks of
//! one range, whose size is a power of two and which begins at a multiple of its size.
//!
//! Main contracts: `PoolRange::new` is the range, or the first of three refusals.
#![tactic(auto)]

mod range;

pub use range::{ADDRESS_END, GREATEST_ORDER, LEAST_ORDER, PAGE_BYTES, PoolRange, RangeError};
