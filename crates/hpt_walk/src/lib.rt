//! The walk of a hashed page table: the search of a page's two groups, over any store of entries.
//!
//! Power ISA 2.07 Book III-S, hashed page table search. What the reply to an access is, by a cached
//! translation or by a walk, is defined here too (`specs/Access.antt`).
//!
//! Main contracts: `walk`: the receipts of a walk, and the one found; `access_tells_page`,
//! `other_pages_dont_match`, `addresses_lie_in_actual_pages`, `hits_use_their_page`,
//! `walk_finds_first`.
#![tactic(auto)]

mod access;
mod laws;
mod logical;
mod page_calls;
mod request;
mod walking;

pub use access::access_op;
pub use laws::{
    access_tells_page, addresses_lie_in_actual_pages, current_lines_decide, hits_use_their_page,
    lines_match_accesses, masked_exactly_where_refused, only_at_changes_entries,
    other_pages_dont_match, walk_finds_first, walks_give_lines, walks_use_their_page,
    zero_masks_refuse_no_access,
};
pub use logical::logical_of;
pub use page_calls::PageCalls;
pub use request::Request;
pub use walking::{WalkAnswer, walk, walk_into};
