//! The two calls by which a guest changes the size of its page table: H_RESIZE_HPT_PREPARE makes a
//! new table ready, and H_RESIZE_HPT_COMMIT carries the bolted entries over and makes it the table.
//!
//! The calls have Linux's names. Their behaviour, as this crate describes it, is the project's own.
//!
//! Main contracts: `rehash`: the new table, or the first collision, and none where the order isn't
//! lower; `Resize::prepare`, `commit`.
#![tactic(auto)]

mod carry;
mod current;
mod holder;
mod pending;
mod prepared;

pub use carry::{Collision, rehash, rehash_into};
pub use current::{CommitAnswer, Current};
pub use holder::StateHolder;
pub use pending::READY_A_CALL;
pub use prepared::{Resize, is_prepare_request};
