//! Traces of several partitions over one pool: the kept replies have the text of a run that keeps
//! none.
use lpar_set::{SetTrace, parse_set, run_set, set_text, set_to_text};
use std::alloc::Global;
use std::fmt::Write;
use std::process::Abort;
use std::test::Fail;
use trace_read::TraceError;

/// Two partitions over a pool that has room for two tables.
const TWO: &str = "shared 0x1000000000 19
0 order 18
0 ram 0x0 0x2000000000 0x40000000
0 begin
1 order 18
1 ram 0x0 0x3000000000 0x40000000
1 begin
0 0 H_ENTER 0x0 0x20 0x1001 0x3012
1 0 H_ENTER 0x0 0x20 0x1001 0x3012
1 0 slbmte 0x8000000 0x1000
1 0 load 0x5000 priv
0 0 load 0x5000 priv
0 0 H_RESIZE_HPT_PREPARE 0x0 18
1 dump
";

const TWO_REPLIES: &str = "0 8 0 H_ENTER 0 0x20 | 0x20.0.0.entered
1 9 0 H_ENTER 0 0x20 | 0x20.0.0.entered
1 10 0 slbmte ok
1 11 0 load at 0x3000003000 walk | 0x20.1.0.at
0 12 0 load nosegment
0 13 0 H_RESIZE_HPT_PREPARE -9
1 14 dump table 0 order 18 place 0x1000040000 entries 1
1  0x20 0x1001 0x3112 1
";

fn accepted(alloc: Global, input: &str) -> Result<SetTrace, Fail> {
    match parse_set(alloc, input.as_bytes()) {
        Ok(set) => Ok(set),
        Err(TraceError::Line { why, .. }) => Err(why.word().into()),
        Err(TraceError::Memory) => Err("no memory".into()),
    }
}

/// The text of the replies, which are kept first.
fn kept_text(alloc: Global, set: &SetTrace) -> Result<String, Fail> {
    let replies = run_set(alloc, set)?;
    Ok(set_text(alloc, set, &replies)?)
}

/// The text of the kept replies is this one, and that of a run that keeps none.
fn check(rt: &impl Abort, alloc: Global, input: &str, wanted: &str) -> Result<(), Fail> {
    let set = accepted(alloc, input)?;
    assert_eq!(rt; kept_text(alloc, &set)?.as_str(), wanted);
    assert_eq!(rt; set_to_text(alloc, &set)?.as_str(), wanted);
    Ok(())
}

#[test]
fn kept_replies_of_two_partitions_have_their_text(rt: HostRuntime) -> Result<(), Fail> {
    check(&rt, rt.alloc(), TWO, TWO_REPLIES)
}

/// The configuration of a partition of 64 processors, and a line of each of these.
fn push_partition(input: &mut String, number: u64) -> Result<(), Fail> {
    let machine = 0x20_0000_0000_u64 | (number << 32);
    write!(
        input,
        "{number} cpus 64\n{number} ram 0 {machine} 4096\n{number} begin\n"
    )?;
    Ok(())
}

#[test]
fn kept_replies_of_eight_partitions_have_their_text(rt: HostRuntime) -> Result<(), Fail> {
    let alloc = rt.alloc();
    let mut input = String::new(alloc);
    for number in 0..8 {
        push_partition(&mut input, number)?;
    }
    let mut wanted = String::new(alloc);
    for cpu in 0..64_u32 {
        for number in 0..8_u32 {
            // The configurations have 24 lines.
            let line = 25 + cpu * 8 + number;
            write!(input, "{number} {cpu} slbclear\n")?;
            write!(wanted, "{number} {line} {cpu} slbclear ok\n")?;
        }
    }
    check(&rt, alloc, input.as_str(), wanted.as_str())
}
