//! More calls of more processors than a group has entries. Which of them get one is the schedule's
//! choice, and each reply is known except for that.

use super::gates::{answered, judged_input};
use super::par::together;
use papr_top::{OpenGate, Status};
use std::alloc::Global;
use std::fmt::Write;
use std::test::Fail;

/// Lines of each processor, and the first line after the configuration.
const EACH: u32 = 2;

const FIRST: u32 = 4;

const PROCESSORS: u32 = 64;

/// Entries of a group.
const GROUP: u32 = 8;

/// The dump at the end, whose line is the 132nd.
const DUMP: &str = "132 dump table 0 order 18 place 0x1000000000 entries 8
 0x20 0x1001 0x3012 1
 0x21 0x1001 0x3012 1
 0x22 0x1001 0x3012 1
 0x23 0x1001 0x3012 1
 0x24 0x1001 0x3012 1
 0x25 0x1001 0x3012 1
 0x26 0x1001 0x3012 1
 0x27 0x1001 0x3012 1
";

fn input(alloc: Global) -> Result<String, Fail> {
    let mut text = String::from_str(alloc, "cpus 64\nram 0x0 0x2000000000 0x40000000\nbegin\n")?;
    for call in 0..EACH * PROCESSORS {
        let cpu = call / EACH;
        write!(text, "{cpu} H_ENTER 0x0 0x20 0x1001 0x3012\n")?;
    }
    text.push_str("dump\n")?;
    Ok(text)
}

/// What H_ENTER answers where it finds the first entries of the group taken, so many.
fn answer(alloc: Global, taken: u32) -> Result<String, Fail> {
    let mut text = String::new(alloc);
    if taken == GROUP {
        text.push_str("-6 |")?;
    } else {
        write!(text, "0 0x2{taken} |")?;
    }
    for entry in 0..taken {
        write!(text, " 0x2{entry}.1.0.taken")?;
    }
    if taken < GROUP {
        write!(text, " 0x2{taken}.0.0.entered")?;
    }
    Ok(text)
}

/// How many of the replies to the calls are this answer.
fn count(alloc: Global, text: &str, answer: &str) -> Result<u32, Fail> {
    let mut found = 0u32;
    for (call, line) in (0..EACH * PROCESSORS).zip(text.split('\n')) {
        let number = FIRST.saturating_add(call);
        let cpu = call / EACH;
        let reply = format!(in alloc; "{number} {cpu} H_ENTER {answer}")?;
        if line == reply.as_str() {
            found = found.saturating_add(1);
        }
    }
    Ok(found)
}

#[test]
fn a_group_is_filled_and_all_others_find_it_full(rt: HostRuntime) -> Result<(), Fail> {
    let alloc = rt.alloc();
    let trace = input(alloc)?;
    let (status, text) = together(&rt, alloc, trace.as_str())?;
    assert_eq!(rt; status, Status::Done);
    for taken in 0..=GROUP {
        let found = count(alloc, text.as_str(), answer(alloc, taken)?.as_str())?;
        let wanted = if taken < GROUP { 1 } else { 120 };
        assert_eq!(rt; found, wanted, "behind {taken}");
    }
    assert!(rt; text.as_str().ends_with(DUMP));
    assert_eq!(rt; text.as_str().split('\n').count(), 138);
    let judged = judged_input(alloc, trace.as_str(), text.as_str())?;
    let (status, verdict) = answered(&rt, alloc, &["check"], judged.as_str(), &OpenGate)?;
    assert_eq!(rt; (status, verdict.as_str()), (Status::Done, "good\n"));
    Ok(())
}
