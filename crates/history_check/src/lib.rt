//! A judge of recorded runs: whether the replies to a trace are those of a good run, and the first
//! section of which they are not.
//!
//! Main contracts: `check_replies`: the verdict on a text of replies, in both directions;
//! `at_most_one`, `one_verdict`, `good_runs_are_good`.
#![tactic(auto)]

mod accesses;
mod calls;
mod checking;
mod context;
mod fitting;
mod fronts;
mod judged_run;
mod judging;
mod judging_lines;
mod laws;
mod line_reply;
mod mark_steps;
mod ordering;
mod parting;
mod placed;
mod processor;
mod reading;
mod replay;
mod section;
mod steps;
mod verdict;

pub use checking::check_replies;
pub use laws::{at_most_one, earlier_sections_stand, good_runs_are_good, one_verdict};
pub use verdict::Verdict;
