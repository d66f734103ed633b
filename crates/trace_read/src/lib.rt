//! Traces: the configuration of a partition, and the lines that its processors run, as they are
//! read from the bytes of an input.
//!
//! Main contracts: `parse` is the accepted trace, or the first refused line with its reason
//! (`trace_of`); `TraceReader` reads lines with their numbers, as the whole input is read
//! (`reads_as_the_input`).
#![tactic(auto)]

mod acts;
mod config;
mod counted;
mod entries;
mod entry_line;
mod forms;
mod given;
mod grant_line;
mod laws;
mod lines;
mod numbers;
mod parser;
mod pool_line;
mod reader;
mod settings;
mod stage;
mod stop;
mod trace;
mod trace_reader;
mod verbs;
mod why;
mod windows;

pub use config::{Config, GREATEST_TRACE_ORDER, MOST_PROCESSORS};
pub use entries::EntryLines;
pub use forms::{is_name, is_setting};
pub use given::{Given, LineRefused};
pub use laws::{
    none_is_refused_for_a_partition, reads_as_the_input, tables_name_a_grant, text_is_read_by_words,
};
pub use lines::{drop_cr, is_remark_line, is_text, lines_of, read_words, split_line};
pub use numbers::number;
pub use parser::{MOST_BYTES, TraceError, parse};
pub use pool_line::pool_named;
pub use stop::Stop;
pub use trace::Trace;
pub use trace_reader::{MOST_LINES, POOL_BASE, POOL_ORDER, TraceReader};
pub use why::Why;
pub use windows::WindowLines;
