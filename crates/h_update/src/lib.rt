//! The hypervisor calls of LoPAR that read and change entries: H_REMOVE, H_PROTECT, H_READ,
//! H_CLEAR_REF, H_CLEAR_MOD and H_BULK_REMOVE, over any store of page table entries. What a call
//! tries, and what it answers, is its plan (`call_plan`).
//!
//! Main contracts: each is the reply that its receipts give, by its plan.
#![tactic(auto)]

mod bulk;
mod single;

pub use bulk::h_bulk_remove;
pub use single::{h_clear_mod, h_clear_ref, h_protect, h_read, h_remove};
