//! Long runs of processors side by side: each line is answered, and the text is judged good.
use super::{answered_within, judged_input};
use papr_top::{OpenGate, Status};
use std::alloc::Global;
use std::fmt::Write;
use std::test::Fail;

/// Lines of each processor.
const EACH: u32 = 20_000;

const PROCESSORS: u32 = 2;

/// Each processor makes its entry and removes it again, over and over. Both entries are of one
/// group.
fn trace(alloc: Global) -> Result<String, Fail> {
    let mut text = String::from_str(alloc, "cpus 2\nram 0x0 0x2000000000 0x40000000\nbegin\n")?;
    for _ in 0..EACH / 2 {
        for cpu in 0..PROCESSORS {
            write!(text, "{cpu} H_ENTER 0x8000000000 0x2{cpu} 0x1001 0x3012\n")?;
            write!(text, "{cpu} H_REMOVE 0x0 0x2{cpu} 0x0\n")?;
        }
    }
    Ok(text)
}

/// How many lines of the text have a number and then this word, a processor's.
fn count(text: &str, cpu: &str) -> usize {
    text.split('\n')
        .filter(|line| line.split(' ').skip(1).next() == Some(cpu))
        .count()
}

#[test]
fn each_of_many_lines_is_answered(rt: HostRuntime) -> Result<(), Fail> {
    let alloc = rt.alloc();
    let trace = trace(alloc)?;
    let (status, text) = answered_within(&rt, alloc, &["par"], trace.as_str(), &OpenGate, 1 << 23)?;
    assert_eq!(rt; status, Status::Done);
    for cpu in ["0", "1"] {
        assert_eq!(rt; count(text.as_str(), cpu), EACH as usize);
    }
    let input = judged_input(alloc, trace.as_str(), text.as_str())?;
    let (status, verdict) = answered_within(&rt, alloc, &["check"], input.as_str(), &OpenGate, 64)?;
    assert_eq!(rt; (status, verdict.as_str()), (Status::Done, "good\n"));
    Ok(())
}
