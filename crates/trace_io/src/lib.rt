//! Where the bytes of a run come from and where its text goes.
//!
//! A run is generic over a [`Source`] and a [`Sink`], so that its contract can speak of the bytes
//! read and written. Over memory they show these bytes and fail on demand; over std's readers and
//! writers they are the program's edge.
//!
//! Main contracts: `read_all`, `write_all`: every byte in order, and the cause of each fault.
#![tactic(auto)]

mod memory_sink;
mod memory_source;
mod outside;
mod reading;
mod std_edge;
mod steady_sink;
mod steady_source;
mod writing;

pub use memory_sink::MemorySink;
pub use memory_source::MemorySource;
pub use outside::{Failed, Sink, Source};
pub use reading::{ReadAllError, read_all};
pub use std_edge::{StdSink, StdSource};
pub use steady_sink::SteadySink;
pub use steady_source::SteadySource;
pub use writing::write_all;
