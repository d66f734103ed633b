//! A page table entry of the machine: its words in memory, and the state that its receipts so far
//! lead to.
use crate::control::Control;
use entry_model::EntryState;

/// An entry: its three words, and the state that it counts with.
#[derive(Clone, Copy, PartialEq, Eq, Debug)]
pub struct Entry {
    /// The first word.
    pub control: Control,
    /// The first data word.
    pub dword0: u64,
    /// The second data word.
    pub dword1: u64,
    /// The state of the words; while the entry is shut, the one from before.
    pub published: EntryState,
}
