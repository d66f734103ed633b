//! The run lines of a trace: what each asks for, on which processor.
//!
//! Main contracts: `Act::is_quiet`: at resizes and dumps alone.
#![tactic(auto)]

mod act;
mod line;

pub use act::Act;
pub use line::{TraceLine, TraceLines};
