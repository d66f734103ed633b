//! Sets of partitions over one pool of table memory: up to eight partitions, each with its own
//! grants, processors and table, whose lines run in the order of one input.
//!
//! What a partition may get of the pool depends on the others, and nothing else does.
//!
//! Main contracts: `parse_set`: the accepted set, or the first refused line with its reason
//! (`set_of`); `run_set`, `set_text`, `set_to_text`: the run of the set and its text;
//! `sets_are_of_their_lines`: a partition's trace is that of its own lines, read as an input in
//! which all others are remarks; `lines_have_one_set`; `refusals_are_of_their_lines`;
//! `sets_are_assured`: each partition runs as if alone until the pool has no room for it, on its
//! own machine memory.
#![tactic(auto)]

mod act;
mod laws;
mod member;
mod members;
mod parse;
mod run;
mod set;
mod set_end;
mod set_reader;
mod set_words;
mod strangers;
mod text;
mod turn;

pub use laws::sets_are_assured;
pub use parse::parse_set;
pub use run::run_set;
pub use set::{SetPartition, SetTrace};
pub use text::{set_text, set_to_text};
pub use turn::Turn;
