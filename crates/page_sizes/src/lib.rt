//! The page sizes that the two doublewords of a page table entry can encode.
//!
//! Power ISA 2.07 Book III-S, section 5.7.7.1: with L set, the low bits of the real page number
//! encode the size. The encodings are those of the table in `specs/Sizes.antt`.
//!
//! Main contracts: `decode` is the row of the table of seven sizes that fits; no other one does.
#![tactic(auto)]

mod decoding;
mod size;

pub use decoding::decode;
pub use size::PageSize;
