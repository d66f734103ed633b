//! What a page's protection bits allow.
//!
//! Power ISA Book III, storage protection under hashed page table translation: three protection
//! bits and the key of the access decide whether it may read and write.
//!
//! Main contracts: `allows` is the table of protection bits and key (allowed or not).
#![tactic(auto)]

mod protection;
mod want;

pub use protection::allows;
pub use want::Want;
