//! Runs of the program under `par` that a gate of the caller's holds or watches, and one run of
//! each other command through the same call.
mod all_at_once;
mod calls;
mod commands;
mod held;
mod long;
mod whole;

use papr_top::{Gate, Status, papr};
use std::alloc::Global;
use std::sync::Wait;
use std::test::Fail;
use std::thread::Threads;
use trace_io::{SteadySink, SteadySource};

/// The status of these words over an input, and the text that was written, of so many bytes at
/// most.
fn answered_within<R: Threads + Wait + Sync, G: Gate + Sync>(
    rt: &R,
    alloc: Global,
    words: &[&str],
    input: &str,
    gate: &G,
    room: usize,
) -> Result<(Status, String), Fail> {
    let mut list = Vec::new(alloc);
    for word in words {
        list.push(String::from_str(alloc, word)?)?;
    }
    let mut source = SteadySource::new(input.as_bytes().to_vec(alloc)?, 4096);
    let mut sink = SteadySink::new(alloc, 4096, room)?;
    let status = papr(rt, alloc, &list, &mut source, &mut sink, gate);
    match String::from_utf8(sink.taken().to_vec(alloc)?) {
        Ok(text) => Ok((status, text)),
        Err(_) => Err("not a text".into()),
    }
}

/// The same of a text of at most 65,536 bytes.
pub fn answered<R: Threads + Wait + Sync, G: Gate + Sync>(
    rt: &R,
    alloc: Global,
    words: &[&str],
    input: &str,
    gate: &G,
) -> Result<(Status, String), Fail> {
    answered_within(rt, alloc, words, input, gate, 65_536)
}

/// A trace and a text of its replies, as `check` reads them.
pub fn judged_input(alloc: Global, trace: &str, text: &str) -> Result<String, Fail> {
    let mut input = String::from_str(alloc, trace)?;
    input.push_str("replies\n")?;
    input.push_str(text)?;
    Ok(input)
}
