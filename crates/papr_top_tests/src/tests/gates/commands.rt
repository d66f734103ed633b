//! Each command that isn't `par`, by the call that may start threads: it is answered, and calls no
//! gate.
use super::calls::Calls;
use super::{answered, judged_input};
use papr_top::Status;
use std::alloc::Global;
use std::process::Abort;
use std::sync::Wait;
use std::test::Fail;
use std::thread::Threads;

/// These words over this input are answered with Done and this text, and the gate isn't called.
fn expect<R: Abort + Threads + Wait + Sync>(
    rt: &R,
    alloc: Global,
    words: &[&str],
    input: &str,
    wanted: &str,
) -> Result<(), Fail> {
    let gate = Calls::new(alloc, &[])?;
    let (status, text) = answered(rt, alloc, words, input, &gate)?;
    assert_eq!(rt; (status, text.as_str()), (Status::Done, wanted));
    assert_eq!(rt; gate.count(), 0);
    Ok(())
}

/// Two processors enter one page, and the entry is stored to.
const TRACE: &str = "order 18
cpus 2
ram 0x0 0x2000000000 0x40000000
begin
0 slbmte 0x8000000 0x1000
0 H_ENTER 0x0 0x20 0x1001 0x3012
1 H_ENTER 0x0 0x20 0x1001 0x4012
0 store 0x5000 priv
";

const REPLIES: &str = "5 0 slbmte ok
6 0 H_ENTER 0 0x20 | 0x20.0.0.entered
7 1 H_ENTER 0 0x21 | 0x20.1.0.taken 0x21.0.0.entered
8 0 store at 0x2000003000 walk | 0x20.1.0.at
";

#[test]
fn run_writes_the_replies(rt: HostRuntime) -> Result<(), Fail> {
    expect(&rt, rt.alloc(), &["run"], TRACE, REPLIES)
}

#[test]
fn check_judges_the_replies(rt: HostRuntime) -> Result<(), Fail> {
    let alloc = rt.alloc();
    let input = judged_input(alloc, TRACE, REPLIES)?;
    expect(&rt, alloc, &["check"], input.as_str(), "good\n")
}

#[test]
fn image_writes_the_table(rt: HostRuntime) -> Result<(), Fail> {
    // R and C of the entry that was stored to are 0x180 of doubleword 1.
    let image = "image old order 18 entries 2
0x20 00000000000010010000000000003192
0x21 00000000000010010000000000004012
";
    expect(&rt, rt.alloc(), &["image", "old"], TRACE, image)
}

/// Two partitions that enter a page each, at the same index.
const SET: &str = "shared 0x1000000000 19
0 order 18
0 ram 0x0 0x2000000000 0x40000000
0 begin
5 order 18
5 ram 0x0 0x3000000000 0x40000000
5 begin
5 0 H_ENTER 0x0 0x20 0x1001 0x3012
0 0 H_ENTER 0x0 0x20 0x1001 0x3012
";

#[test]
fn set_runs_both_partitions(rt: HostRuntime) -> Result<(), Fail> {
    let wanted = "5 8 0 H_ENTER 0 0x20 | 0x20.0.0.entered
0 9 0 H_ENTER 0 0x20 | 0x20.0.0.entered
";
    expect(&rt, rt.alloc(), &["set"], SET, wanted)
}

#[test]
fn drill_counts_the_segments_of_its_processors(rt: HostRuntime) -> Result<(), Fail> {
    let summary = "lines 4
hcalls 0
success 0
full 0
notfound 0
accesses 0
at 0
denied 0
nopage 0
hits 0
entries 0
changed 0
";
    expect(&rt, rt.alloc(), &["drill", "1", "0"], "no trace", summary)
}
