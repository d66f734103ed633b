//! The running table: a hashed page table that threads share by reference.
//!
//! Each entry has three atomic words: a control word (lock, shut, valid, R, C, stamp) and two data
//! words. A thread has a [`Pass`], the right to take steps on the table. An operation of a
//! hypervisor call locks its entry, and shuts it before it changes it; an access locks nothing, as
//! a processor that reads the table by itself does (Power ISA 2.07 Book III, recording of
//! references and changes): it looks at the control word, and raises R and C only where it finds
//! that word again.
//!
//! The rule that each step keeps: words and passes show a state of `lock_core`'s machine. So what
//! holds of every list of the machine's steps holds of the table, and a pass with all shares closes
//! it to states to which each entry's history leads. `src/laws.rt` states the rule step by step.
//!
//! Main contracts: `Pass::try_apply`, `try_known`: one receipt at the end of the pass's list and
//! not before its front, or none, in one try (at most one lock step, or two looks and marks), by
//! exactly the machine's steps that its clause `steps` names, and busy only for causes in the words
//! of the call's entry; `LockTable::close`: the passes' receipts are those of a run of
//! `lock_core`'s machine; `LockTable::state_at_rest`: the state that an entry closes to; laws such
//! as `operations_are_single_steps`, `each_operation_is_a_step`, `raised_bits_stand`,
//! `tables_are_shared`.
#![tactic(auto)]

mod access_steps;
mod accesses;
mod busy;
mod calls;
mod closing;
mod control_word;
mod holder_steps;
mod laws;
mod layout;
mod line_accesses;
mod line_steps;
mod opening;
mod outcome;
mod passes;
mod pause;
mod plays;
mod rest_plays;
mod resting;
mod rule;
mod table;
mod waiting;

pub use busy::Busy;
pub use closing::Closed;
pub use laws::{
    each_operation_is_a_step, joins_are_steps, looks_that_find_gone_are_no_steps,
    operations_are_single_steps, passes_change_threads, raised_bits_stand, splits_are_steps,
    states_at_rest_close, tables_are_shared, tables_open_on_their_states,
};
pub use opening::OpenRefused;
pub use pause::{JustLocked, NoPause, Pause};
pub use rule::{LockRule, Opening, View};
pub use table::{LockTable, Pass};
pub use waiting::Waiting;
