//! Serial runs of short traces, with their whole texts: cached translations, resizes, and the
//! largest table.
mod parallel;

use entry_model::EntryState;
use reply_text::text_of;
use std::alloc::Global;
use std::fmt::Write;
use std::test::Fail;
use trace_read::{Trace, TraceError, parse};
use trace_reply::Reply;
use trace_runner::{Ran, run_serial, run_to_text, run_with_table};

fn accepted(alloc: Global, input: &str) -> Result<Trace, Fail> {
    match parse(alloc, input.as_bytes()) {
        Ok(trace) => Ok(trace),
        Err(TraceError::Line { why, .. }) => Err(why.word().into()),
        Err(TraceError::Memory) => Err("no memory".into()),
    }
}

/// The text of the replies to an input.
fn replies(alloc: Global, input: &str) -> Result<String, Fail> {
    Ok(run_to_text(alloc, &accepted(alloc, input)?)?)
}

/// The text of the replies of the serial run.
fn serial_text(alloc: Global, trace: &Trace) -> Result<String, Fail> {
    let replies = run_serial(alloc, trace)?;
    Ok(text_of(alloc, trace, &replies)?)
}

fn ran(alloc: Global, input: &str) -> Result<Ran, Fail> {
    let trace = accepted(alloc, input)?;
    Ok(run_with_table(alloc, &trace)?)
}

/// One processor enters a page and loads from it twice, and another one protects it.
const SHARED_PAGE: &str = "order 18
cpus 2
ram 0x0 0x2000000000 0x40000000
begin
0 slbmte 0x8000000 0x1000
0 H_ENTER 0x0 0x20 0x1001 0x3012
0 load 0x5000 priv
0 load 0x5000 priv
1 H_PROTECT 0x2 0x20 0x0
0 load 0x5000 priv
";

#[test]
fn a_cached_line_is_used_until_another_processor_protects_its_page(
    rt: HostRuntime,
) -> Result<(), Fail> {
    assert_eq!(rt;
        replies(rt.alloc(), SHARED_PAGE)?.as_str(),
        "5 0 slbmte ok
6 0 H_ENTER 0 0x20 | 0x20.0.0.entered
7 0 load at 0x2000003000 walk | 0x20.1.0.at
8 0 load at 0x2000003000 hit | 0x20.1.2.at
9 1 H_PROTECT 0 | 0x20.1.2.protected
10 0 load at 0x2000003000 walk | 0x20.2.2.at
"
    );
    Ok(())
}

#[test]
fn the_text_is_that_of_the_replies(rt: HostRuntime) -> Result<(), Fail> {
    let alloc = rt.alloc();
    let trace = accepted(alloc, SHARED_PAGE)?;
    assert_eq!(rt;
        serial_text(alloc, &trace)?.as_str(),
        run_to_text(alloc, &trace)?.as_str()
    );
    Ok(())
}

#[test]
fn the_table_at_the_end_is_shown(rt: HostRuntime) -> Result<(), Fail> {
    let ran = ran(rt.alloc(), SHARED_PAGE)?;
    let replies = ran.replies.as_slice();
    assert_eq!(rt; replies.len(), 6);
    assert!(rt; matches!(replies.first(), Some(Reply::Segment(true))));
    assert_eq!(rt; (ran.table.number, ran.table.order), (0, 18));
    assert_eq!(rt; ran.table.place, 0x10_0000_0000);
    let entry = EntryState {
        valid: true,
        dword0: 0x1001,
        dword1: 0x3012,
        referenced: true,
        changed: false,
        stamp: 2,
    };
    assert_eq!(rt; ran.table.states.as_slice(), [(0x20, entry)].as_slice());
    Ok(())
}

#[test]
fn a_committed_resize_ends_all_cached_lines(rt: HostRuntime) -> Result<(), Fail> {
    let input = "order 18
cpus 2
ram 0x0 0x2000000000 0x40000000
begin
1 slbmte 0x8000000 0x1000
0 H_ENTER 0x8000000000 0x20 0x1011 0x3012
0 H_ENTER 0x8000000000 0x21 0x1001 0x4012
1 load 0x5000 priv
1 H_RESIZE_HPT_COMMIT 0x0 19
1 load 0x5000 priv
0 H_RESIZE_HPT_PREPARE 0x0 19
0 hcall 0x36C 0x0 19
1 load 0x5000 priv
0 H_RESIZE_HPT_COMMIT 0x0 19
dump
1 load 0x5000 priv
1 slbclear
1 load 0x5000 priv
1 slbmte 0x8000000 0x1010
0 hcall 0x999
";
    assert_eq!(rt;
        replies(rt.alloc(), input)?.as_str(),
        "5 1 slbmte ok
6 0 H_ENTER 0 0x20 | 0x20.0.0.entered
7 0 H_ENTER 0 0x21 | 0x21.0.0.entered
8 1 load at 0x2000003000 walk | 0x20.1.0.at
9 1 H_RESIZE_HPT_COMMIT 2
10 1 load at 0x2000003000 hit | 0x20.1.2.at
11 0 H_RESIZE_HPT_PREPARE 9900
12 0 hcall 0
13 1 load at 0x2000003000 hit | 0x20.1.2.at
14 0 H_RESIZE_HPT_COMMIT 0
15 dump table 1 order 19 place 0x1000080000 entries 1
 0x20 0x1011 0x3112 0
16 1 load at 0x2000003000 walk | 0x20.0.2.at
17 1 slbclear ok
18 1 load nosegment
19 1 slbmte refused
20 0 hcall -2
"
    );
    Ok(())
}

#[test]
fn the_last_entry_of_the_largest_table(rt: HostRuntime) -> Result<(), Fail> {
    let input = "order 22
ram 0x0 0x2000000000 0x40000000
begin
0 H_ENTER 0x8000000000 0x3ffff 0x1001 0x3012
0 H_READ 0x0 0x3ffff
";
    assert_eq!(rt;
        replies(rt.alloc(), input)?.as_str(),
        "4 0 H_ENTER 0 0x3ffff | 0x3ffff.0.0.entered
5 0 H_READ 0 0x1001 0x3012 | 0x3ffff.1.0.read
"
    );
    Ok(())
}

#[test]
fn a_resize_to_the_largest_table(rt: HostRuntime) -> Result<(), Fail> {
    let alloc = rt.alloc();
    let mut input = String::from_str(
        alloc,
        "order 18
ram 0x0 0x2000000000 0x40000000
begin
0 H_ENTER 0x8000000000 0x20 0x1011 0x3012
0 H_ENTER 0x8000000000 0x21 0x1001 0x4012
",
    )?;
    let mut told = String::from_str(
        alloc,
        "4 0 H_ENTER 0 0x20 | 0x20.0.0.entered
5 0 H_ENTER 0 0x21 | 0x21.0.0.entered
",
    )?;
    for call in 0..16 {
        let line = call + 6;
        let code = if call < 15 { 9900 } else { 0 };
        input.push_str("0 H_RESIZE_HPT_PREPARE 0x0 22\n")?;
        write!(told, "{line} 0 H_RESIZE_HPT_PREPARE {code}\n")?;
    }
    input.push_str(
        "0 H_RESIZE_HPT_COMMIT 0x0 22
dump
0 H_ENTER 0x8000000000 0x3ffff 0x1001 0x4012
dump
",
    )?;
    told.push_str(
        "22 0 H_RESIZE_HPT_COMMIT 0
23 dump table 1 order 22 place 0x1000400000 entries 1
 0x20 0x1011 0x3012 0
24 0 H_ENTER 0 0x3ffff | 0x3ffff.0.0.entered
25 dump table 1 order 22 place 0x1000400000 entries 2
 0x20 0x1011 0x3012 0
 0x3ffff 0x1001 0x4012 1
",
    )?;
    assert_eq!(rt; replies(alloc, input.as_str())?.as_str(), told.as_str());
    Ok(())
}
