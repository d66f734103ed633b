//! Runs of 64 processors in threads of their own, whose replies are known except for the schedule.

use super::{list, text_in};
use papr_top::{OpenGate, Status, papr};
use std::alloc::Global;
use std::fmt::Write;
use std::sync::Wait;
use std::test::Fail;
use std::thread::Threads;
use trace_io::{MemorySink, MemorySource};

/// The status and the text of an input under `par`, from a source of pieces of 16 bytes to a sink
/// of pieces of 8.
pub fn together<R: Threads + Wait + Sync>(
    rt: &R,
    alloc: Global,
    input: &str,
) -> Result<(Status, String), Fail> {
    let bytes = input.as_bytes().to_vec(alloc)?;
    let mut source = MemorySource::new(bytes, 16, Vec::new(alloc));
    let mut sink = MemorySink::new(alloc, 8, Vec::new(alloc), 65_536)?;
    let words = list(alloc, &["par"])?;
    let status = papr(rt, alloc, &words, &mut source, &mut sink, &OpenGate);
    Ok((status, text_in(alloc, &sink)?))
}

/// Each of 64 processors enters the page, and reads an entry of its group; a dump at the end.
fn entering_and_reading(alloc: Global) -> Result<String, Fail> {
    let mut input = String::from_str(alloc, "cpus 64\nram 0x0 0x2000000000 0x40000000\nbegin\n")?;
    for cpu in 0..64u32 {
        write!(input, "{cpu} H_ENTER 0 0x20 0x1001 0x3012\n")?;
        write!(input, "{cpu} H_READ 0 0x2{}\n", cpu % 8)?;
    }
    input.push_str("dump\n")?;
    Ok(input)
}

/// How many lines of the text have this part.
fn count(text: &str, part: &str) -> usize {
    text.split('\n').filter(|line| line.contains(part)).count()
}

#[test]
fn eight_of_many_processors_enter_a_page_of_one_group(rt: HostRuntime) -> Result<(), Fail> {
    let input = entering_and_reading(rt.alloc())?;
    let (status, text) = together(&rt, rt.alloc(), input.as_str())?;
    assert_eq!(rt; status, Status::Done);
    for (part, times) in [
        (".entered", 8),
        (" H_ENTER -6 ", 56),
        (".read", 64),
        (" 0x1001 0x3012 1", 8),
        ("dump table 0 order 18 place 0x1000000000 entries 8", 1),
    ] {
        assert_eq!(rt; count(text.as_str(), part), times, "of {part}");
    }
    Ok(())
}
