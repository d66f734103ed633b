//! A partition while no call of a processor runs: its page table, the table that is being prepared,
//! the pool of table memory, and the memory that is granted to the guest.
//!
//! Main contracts: `prepare`, `commit`: the two resize calls on the partition's tables and pool;
//! `shown`: what a dump shows of its table; `commit_keeps_translations`.
#![tactic(auto)]

mod laws;
mod partition_state;
mod states;

pub use laws::{
    commit_keeps_translations, kept_translations_are_paired, opens_again, opens_with_entries,
};
pub use partition_state::Partition;
pub use states::opening_states;
