//! Replies of a trace that are kept: their text, the lines of a dump, and what a summary counts.
use entry_model::{EntryState, HReply};
use papr_codes::Rc;
use reply_text::{put_reply, summary_of, text_of};
use std::alloc::Global;
use std::fmt::Write;
use std::ops::Range;
use std::process::Abort;
use std::test::Fail;
use trace_line::{Act, TraceLine};
use trace_read::{Trace, TraceError, parse};
use trace_reply::{Replies, Reply, Shown, ShownStates};

/// Two lines, each of which needs no entry.
const LINES: &str = "begin
0 slbclear
0 hcall 0x999
";

fn accepted(alloc: Global, input: &str) -> Result<Trace, Fail> {
    match parse(alloc, input.as_bytes()) {
        Ok(trace) => Ok(trace),
        Err(TraceError::Line { why, .. }) => Err(why.word().into()),
        Err(TraceError::Memory) => Err("no memory".into()),
    }
}

/// The replies to the two lines.
fn replies(alloc: Global) -> Result<Replies, Fail> {
    let mut replies = Replies::new(alloc);
    replies.reserve(2)?;
    replies.push(Reply::Segment(true))?;
    replies.push(Reply::Hcall(HReply::without_receipts(Rc::Function)))?;
    Ok(replies)
}

/// The table 3, with one entry.
fn shown(alloc: Global) -> Result<Shown, Fail> {
    let state = EntryState {
        valid: true,
        dword0: 0x1001,
        dword1: 0x3012,
        referenced: true,
        changed: true,
        stamp: 7,
    };
    let mut states = ShownStates::new(alloc);
    states.push(0x20, state)?;
    Ok(Shown {
        number: 3,
        order: 18,
        place: 0x10_0000_0000,
        states,
    })
}

/// The text of replies to as many lines.
fn told(alloc: Global, trace: &Trace, replies: &Replies) -> Result<String, Fail> {
    if trace.lines.as_slice().len() != replies.as_slice().len() {
        return Err("not a reply for each line".into());
    }
    Ok(text_of(alloc, trace, replies)?)
}

/// The text of the replies to a trace is this one.
fn check_told(
    rt: &impl Abort,
    alloc: Global,
    input: &str,
    replies: &Replies,
    wanted: &str,
) -> Result<(), Fail> {
    let trace = accepted(alloc, input)?;
    let text = told(alloc, &trace, replies)?;
    assert!(rt; text.as_str() == wanted);
    Ok(())
}

#[test]
fn replies_stand_in_the_order_of_their_lines(rt: HostRuntime) -> Result<(), Fail> {
    let alloc = rt.alloc();
    let replies = replies(alloc)?;
    assert_eq!(rt; replies.as_slice().len(), 2);
    check_told(
        &rt,
        alloc,
        LINES,
        &replies,
        "2 0 slbclear ok\n3 0 hcall -2\n",
    )
}

#[test]
fn a_dump_has_a_line_for_each_entry(rt: HostRuntime) -> Result<(), Fail> {
    let alloc = rt.alloc();
    let line = TraceLine {
        number: 9,
        cpu: 0,
        act: Act::Dump,
    };
    let mut out = String::new(alloc);
    put_reply(&mut out, &line, &Reply::Dump(shown(alloc)?))?;
    assert_eq!(rt;
        out.as_str(),
        "9 dump table 3 order 18 place 0x1000000000 entries 1\n 0x20 0x1001 0x3192 7\n"
    );
    Ok(())
}

/// What is counted of the two lines, their replies and a table with one entry.
const SUMMARY: &str = "lines 2
hcalls 1
success 0
full 0
notfound 0
accesses 0
at 0
denied 0
nopage 0
hits 0
entries 1
changed 1
";

/// The summary of the replies to a trace, with this table at its end, is [`SUMMARY`].
fn check_summary(
    rt: &impl Abort,
    alloc: Global,
    trace: &Trace,
    replies: &Replies,
    table: &Shown,
) -> Result<(), Fail> {
    let summary = summary_of(alloc, trace, replies, table)?;
    assert_eq!(rt; summary.as_str(), SUMMARY);
    Ok(())
}

/// The summary of the replies to the two lines, with this table at its end, is [`SUMMARY`].
fn check_summary_of_lines(rt: &impl Abort, alloc: Global, table: &Shown) -> Result<(), Fail> {
    let replies = replies(alloc)?;
    let trace = accepted(alloc, LINES)?;
    check_summary(rt, alloc, &trace, &replies, table)
}

#[test]
fn a_summary_counts_replies_and_entries(rt: HostRuntime) -> Result<(), Fail> {
    let alloc = rt.alloc();
    let table = shown(alloc)?;
    check_summary_of_lines(&rt, alloc, &table)
}

/// As many lines and replies as `numbers` has, and the text of these.
fn push_all(
    numbers: Range<u32>,
    input: &mut String,
    replies: &mut Replies,
    text: &mut String,
) -> Result<(), Fail> {
    for number in numbers {
        let accepted = number % 3 == 0;
        let verdict = if accepted { "ok" } else { "refused" };
        input.push_str("0 slbmte 0 0\n")?;
        write!(text, "{number} 0 slbmte {verdict}\n")?;
        replies.push(Reply::Segment(accepted))?;
    }
    Ok(())
}

#[test]
fn replies_are_kept_without_room_made_for_them(rt: HostRuntime) -> Result<(), Fail> {
    let alloc = rt.alloc();
    let mut input = String::from_str(alloc, "begin\n")?;
    let mut text = String::new(alloc);
    let mut replies = Replies::new(alloc);
    push_all(2..5_002, &mut input, &mut replies, &mut text)?;
    assert_eq!(rt; replies.as_slice().len(), 5_000);
    check_told(&rt, alloc, input.as_str(), &replies, text.as_str())
}
