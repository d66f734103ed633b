//! The machine of the shared page table, to run without threads: a table of entries and actors that
//! take one step after another on it, in any order that the caller likes.
//!
//! `lock_core` says what a step does. Here a step is code whose contract is that table of steps, so
//! that a list of steps can be tried and looked at. No part of the program runs it.
//!
//! Main contracts: `Core::step` is the table of steps, and says why a step isn't taken.
#![tactic(auto)]

mod actors;
mod machine;
mod seeing;
mod taking;
mod words;

pub use machine::Core;
