//! The hash of the hashed page table: the two groups in which a page's entry may stand, and the
//! page that an entry translates.
//!
//! Power ISA 2.07 Book III-S, virtual to real translation: a table of 2^order bytes has 2^(order -
//! 7) groups of eight entries. An entry leaves out the low bits of its page's index; its group
//! gives them back.
//!
//! Main contracts: `groups`: the two groups, which differ; `page_of`: the one base page that an
//! entry translates, or none exactly if there is none; `one_page_of_an_entry`.
#![tactic(auto)]

mod entry;
mod hash;
mod laws;

pub use entry::{LOWEST_BIT, page_of, virtual_page_number};
pub use hash::groups;
pub use laws::one_page_of_an_entry;
