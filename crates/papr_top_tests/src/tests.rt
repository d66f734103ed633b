//! Runs of the whole program, from its words and its input in memory to its status and the text
//! that it writes.
mod full_group;
mod gates;
mod long_trace;
mod par;
mod words;

use std::alloc::Global;
use std::test::Fail;
use trace_io::MemorySink;

/// The words after the program's name.
fn list(alloc: Global, words: &[&str]) -> Result<Vec<String>, Fail> {
    let mut list = Vec::new(alloc);
    for word in words {
        list.push(String::from_str(alloc, word)?)?;
    }
    Ok(list)
}

/// The text that a sink took.
fn text_in(alloc: Global, sink: &MemorySink) -> Result<String, Fail> {
    match String::from_utf8(sink.taken().to_vec(alloc)?) {
        Ok(text) => Ok(text),
        Err(_) => Err("not a text".into()),
    }
}
