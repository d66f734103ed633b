//! Each of 64 processors is held before its line until the next one has come to its own, and the
//! last until the first has. So the run ends only if all 64 are at work at once.
use super::answered;
use super::calls::{Calls, Hold, Place, held_until};
use papr_top::Status;
use std::alloc::Global;
use std::fmt::Write;
use std::test::Fail;

const PROCESSORS: u32 = 64;

/// The number of the first processor's line.
const FIRST: u32 = 5;

/// A line of each processor, which reads an empty entry.
fn trace(alloc: Global) -> Result<String, Fail> {
    let mut text = String::from_str(
        alloc,
        "order 18\ncpus 64\nram 0x0 0x2000000000 0x40000000\nbegin\n",
    )?;
    for cpu in 0..PROCESSORS {
        write!(text, "{cpu} H_READ 0x0 0x20\n")?;
    }
    Ok(text)
}

/// The reply to each line.
fn replies(alloc: Global) -> Result<String, Fail> {
    let mut text = String::new(alloc);
    for cpu in 0..PROCESSORS {
        let line = FIRST + cpu;
        write!(text, "{line} {cpu} H_READ 0 0x0 0x0 | 0x20.0.0.read\n")?;
    }
    Ok(text)
}

/// Each processor waits for the next one, and the last for the first.
fn holds(alloc: Global) -> Result<Vec<Hold>, Fail> {
    let mut list = Vec::new(alloc);
    for cpu in 0..PROCESSORS {
        let next = FIRST + (cpu + 1) % PROCESSORS;
        list.push(held_until((Place::Before, FIRST + cpu), (Place::Before, next), true))?;
    }
    Ok(list)
}

#[test]
fn each_of_64_processors_has_a_thread(rt: HostRuntime) -> Result<(), Fail> {
    let alloc = rt.alloc();
    let holds = holds(alloc)?;
    let gate = Calls::new(alloc, holds.as_slice())?;
    let (status, text) = answered(&rt, alloc, &["par"], trace(alloc)?.as_str(), &gate)?;
    assert_eq!(rt;
        (status, text.as_str()),
        (Status::Done, replies(alloc)?.as_str())
    );
    assert!(rt; gate.is_kept());
    Ok(())
}
