//! Callers of the crates, each proved from their public clauses alone.
//!
//! Main contracts: each caller's contract is proved from public clauses alone, for example
//! `take_pair`, `enter_and_remove`, `resize`, `text_of_bytes`, `run_program`; each promise from the
//! clause of `papr` and public laws, by `keep_promise` and a type for each, for example `Stores`,
//! `Refusals`, `OneProcessor`.
#![tactic(auto)]

mod accesses;
mod caching;
mod codes;
mod granting;
mod machines;
mod pages;
mod pools;
mod programs;
mod promises;
mod resizing;
mod segments;
mod tables;
mod traces;

pub use accesses::first_access;
pub use caching::fill_and_drop;
pub use codes::{call_again, number_again};
pub use granting::grant_and_ask;
pub use machines::machine_after;
pub use pages::group_of_entry;
pub use pools::{take_and_give, take_pair};
pub use programs::run_program;
pub use promises::{
    Accesses, Caches, Devices, KeptPromise, Masks, NoHardware, OneProcessor, Refusals, Resizes,
    Stores, Texts, ZeroMasks, keep_promise, no_put_is_busy,
};
pub use resizing::resize;
pub use segments::only_segment;
pub use tables::{enter_and_read, enter_and_remove, entry_of_page};
pub use traces::{text_of_bytes, text_of_seed};

#[cfg(test)]
mod tests;
