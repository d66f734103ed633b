//! A hashed page table that one caller uses: a list of the states of its entries.
//!
//! Main contracts: `made` is a run of the entries' own replies; `apply_known` answers if the cached
//! translation is current; otherwise its entry has a later stamp.
#![tactic(auto)]

mod plain;

pub use plain::PlainTable;
