//! Traces that are generated from a number: four processors that enter, remove, protect, read and
//! access the pages of one segment.
//!
//! Main contracts: `generate` is the trace that the seed determines; it is always accepted.
#![tactic(auto)]

mod line;
mod trace;

pub use trace::generate;
