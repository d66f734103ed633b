//! What the program `papr` does: it reads a trace of hypervisor calls and memory accesses, runs its
//! lines one after the other, and writes the reply to each with its receipts; or it does so with a
//! set of partitions whose tables share one pool; or it judges whether a text is that of such a
//! run; or it generates a trace, runs it, and writes a summary.
//!
//! Main contracts: `papr`: the clause `ends` of `docs/PROVED.md`, with when each status comes;
//! `written_texts_are_good`; `image_lines_open_again`: an entry's line of an image opens the entry
//! again.
#![tactic(auto)]

mod answer;
mod imaging;
mod judging;
mod laws;
mod sets;
mod top;

pub use laws::{image_lines_open_again, written_texts_are_good};
pub use papr_edge::Status;
pub use top::{papr, papr_serial};
pub use trace_runner::{Gate, OpenGate};
