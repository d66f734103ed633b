//! The authority masks of a processor: AMR and IAMR.
//!
//! Power ISA Book III, virtual page class key protection: each page has one of 32 keys, and each
//! mask has two bits for each key. The masks refuse accesses that the page's own protection allows.
//!
//! Main contracts: `forbids` is the table of a key's two bits in each mask; masks of 0 refuse
//! nothing.
#![tactic(auto)]

mod forbidding;
mod laws;
mod masks;

pub use forbidding::forbids;
pub use laws::no_masks_refuse_nothing;
pub use masks::{MaskName, Masks};
