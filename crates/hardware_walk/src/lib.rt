//! A page table entry that a processor walks by itself: hypervisor calls beside walks that keep a
//! translation until a tlbie has completed, and record R and C by stores of single bytes.
//!
//! Power ISA Book III, translation lookaside buffer management and reference and change recording.
//! A walk reads doubleword 0, then doubleword 1, and any time may pass before it records. Nothing
//! here runs: the crate has the table of steps and what holds over every list of them. That each
//! order of the protocol is needed is proved in `proofs/Rows.antt`, by a run without it.
//!
//! Main contracts: the laws of every list of steps: `history_is_legal`, `words_are_the_state`,
//! `translations_are_current`, `uses_are_listed`, `receipts_come_later`; of a table
//! `entries_are_apart`, `every_history_is_legal`; and `bytes_set_bits`, in the numbers of
//! doubleword 1.
#![tactic(auto)]

mod laws;

pub use laws::{
    bytes_set_bits, entries_are_apart, every_history_is_legal, history_is_legal,
    receipts_come_later, translations_are_current, uses_are_listed, words_are_the_state,
};
