//! The protocol of the shared page table: what actors may do, one atomic step at a time, to the
//! words of its entries, and what holds whatever steps they take.
//!
//! An entry has a control word (lock, shut, valid, R, C, stamp) and two data words. An operation of
//! a hypervisor call takes the lock, and shuts an entry before it changes it. An access of a
//! processor takes no lock: it looks at the control word, and sets R and C where it finds that word
//! again. `specs/Steps.antt` has the table of steps. Nothing here takes a step: `entry_lock` takes
//! them on atomic words, and `lock_machine` one after another on a table of its own.
//!
//! Main contracts: laws of every list of steps, such as `every_history_is_legal`,
//! `seen_lines_hold`; `state_of`, `receipt`: the state of words, and the receipt as far as an actor
//! knows.
#![tactic(auto)]

mod actor;
mod control;
mod doing;
mod entry;
mod error;
mod laws;
mod phase;
mod sighting;
mod step;
mod step_result;
mod words;

pub use actor::{Actor, MOST_ACTORS};
pub use control::Control;
pub use doing::Doing;
pub use entry::Entry;
pub use error::CoreError;
pub use laws::{
    every_history_is_legal, every_receipt_is_listed, every_receipt_keeps_its_front,
    seen_lines_hold, states_are_in_words, states_change_by_receipts,
};
pub use phase::Phase;
pub use sighting::Sighting;
pub use step::Step;
pub use step_result::StepResult;
pub use words::{is_still, noted_state, receipt, same_bit, same_state, settled_word, state_of};
