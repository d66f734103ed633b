//! A trace of some thousand lines on large tables, with as many processors as there may be. What
//! its lines are answered is written down here line by line, and each way to run it must give that
//! text.
ghost use Rattle.std.specs.Prelude.{◌≡◌, ◌<◌, length};

use super::{list, text_in};
use papr_top::{Status, papr_serial};
use reply_text::{put_reply, summary_of, text_of};
use std::alloc::Global;
use std::fmt::Write;
use std::process::Abort;
use std::test::Fail;
use trace_io::{MemorySink, MemorySource};
use trace_read::{Trace, parse};
use trace_reply::Replies;
use trace_runner::{Ran, run_serial, run_to_text, run_with_table};

const CONFIG: &str = "order 20
cpus 64
pool 0x1000000000 34
ram 0x0 0x2000000000 0x40000000
begin
";

const PROCESSORS: u64 = 64;

/// Bolted pages, each in the first slot of its group.
const PAGES: u64 = 2_048;

/// The lines after the accesses.
const LAST_LINES: &str = "0 H_RESIZE_HPT_PREPARE 0x0 21
1 H_RESIZE_HPT_PREPARE 0x0 21
2 H_RESIZE_HPT_PREPARE 0x0 21
3 H_RESIZE_HPT_PREPARE 0x0 21
4 H_RESIZE_HPT_PREPARE 0x0 21
5 H_RESIZE_HPT_PREPARE 0x0 21
6 H_RESIZE_HPT_PREPARE 0x0 21
7 H_RESIZE_HPT_PREPARE 0x0 21
8 H_RESIZE_HPT_COMMIT 0x0 21
dump
63 load 0x0 priv
63 load 0x0 priv
";

/// The replies to these lines, up to the head of the dump.
const RESIZED: &str = "4166 0 H_RESIZE_HPT_PREPARE 9900
4167 1 H_RESIZE_HPT_PREPARE 9900
4168 2 H_RESIZE_HPT_PREPARE 9900
4169 3 H_RESIZE_HPT_PREPARE 9900
4170 4 H_RESIZE_HPT_PREPARE 9900
4171 5 H_RESIZE_HPT_PREPARE 9900
4172 6 H_RESIZE_HPT_PREPARE 9900
4173 7 H_RESIZE_HPT_PREPARE 0
4174 8 H_RESIZE_HPT_COMMIT 0
4175 dump table 1 order 21 place 0x1000200000 entries 2048
";

/// Those after the dump.
const RESIZED_ACCESSES: &str = "4176 63 load at 0x2000000000 walk | 0x8.0.2.at
4177 63 load at 0x2000000000 hit | 0x8.0.2.at
";

const SUMMARY: &str = "lines 4172
hcalls 2057
success 2050
full 0
notfound 0
accesses 2050
at 2050
denied 0
nopage 0
hits 1
entries 2048
changed 0
";

/// The page's index with its lowest bit turned: in the segment of VSID 1, the group of that page.
fn turned(page: u64) -> u64
    requires { page < 2048 }
    ensures { result < 2048 }
{
    if page % 2 == 0 { page + 1 } else { page - 1 }
}

fn push_lines(text: &mut String) -> Result<(), Fail> {
    for cpu in 0..PROCESSORS {
        write!(text, "{cpu} slbmte 0x8000000 0x1000\n")?;
    }
    for page in 0..PAGES {
        let cpu = page % PROCESSORS;
        let entry = turned(page) * 8;
        let second = page * 4096 + 0x12;
        write!(text, "{cpu} H_ENTER 0x0 0x{entry:x} 0x1011 0x{second:x}\n")?;
    }
    for page in 0..PAGES {
        let cpu = (page + 1) % PROCESSORS;
        let address = page * 4096;
        write!(text, "{cpu} load 0x{address:x} priv\n")?;
    }
    text.push_str(LAST_LINES)?;
    Ok(())
}

/// The replies up to those of the accesses. The configuration has five lines.
fn push_first_replies(text: &mut String) -> Result<(), Fail> {
    for cpu in 0..PROCESSORS {
        let line = 6 + cpu;
        write!(text, "{line} {cpu} slbmte ok\n")?;
    }
    for page in 0..PAGES {
        let line = 70 + page;
        let cpu = page % PROCESSORS;
        let entry = turned(page) * 8;
        write!(
            text,
            "{line} {cpu} H_ENTER 0 0x{entry:x} | 0x{entry:x}.0.0.entered\n"
        )?;
    }
    for page in 0..PAGES {
        let line = 2118 + page;
        let cpu = (page + 1) % PROCESSORS;
        let entry = turned(page) * 8;
        let address = 0x20_0000_0000 + page * 4096;
        write!(
            text,
            "{line} {cpu} load at 0x{address:x} walk | 0x{entry:x}.1.0.at\n"
        )?;
    }
    Ok(())
}

/// The entries of the dump. Each page was read, so R is set.
fn push_entries(text: &mut String) -> Result<(), Fail> {
    for group in 0..PAGES {
        let entry = group * 8;
        let second = turned(group) * 4096 + 0x112;
        write!(text, " 0x{entry:x} 0x1011 0x{second:x} 0\n")?;
    }
    Ok(())
}

fn input(alloc: Global) -> Result<String, Fail> {
    let mut text = String::from_str(alloc, CONFIG)?;
    push_lines(&mut text)?;
    Ok(text)
}

fn told(alloc: Global) -> Result<String, Fail> {
    let mut text = String::new(alloc);
    push_first_replies(&mut text)?;
    text.push_str(RESIZED)?;
    push_entries(&mut text)?;
    text.push_str(RESIZED_ACCESSES)?;
    Ok(text)
}

fn trace(alloc: Global) -> Result<Trace, Fail> {
    Ok(parse(alloc, input(alloc)?.as_bytes())?)
}

#[test]
fn the_program_answers_it(rt: HostRuntime) -> Result<(), Fail> {
    let alloc = rt.alloc();
    let input = input(alloc)?;
    let mut source = MemorySource::new(input.as_bytes().to_vec(alloc)?, 4096, Vec::new(alloc));
    let mut sink = MemorySink::new(alloc, 4096, Vec::new(alloc), 1_048_576)?;
    let status = papr_serial(alloc, &list(alloc, &["run"])?, &mut source, &mut sink);
    assert_eq!(rt; status, Status::Done);
    assert!(rt; text_in(alloc, &sink)? == told(alloc)?);
    Ok(())
}

#[test]
fn it_is_run_to_text(rt: HostRuntime) -> Result<(), Fail> {
    let alloc = rt.alloc();
    let trace = trace(alloc)?;
    assert_eq!(rt; trace.lines.as_slice().len(), 4172);
    assert!(rt; run_to_text(alloc, &trace)? == told(alloc)?);
    Ok(())
}

#[test]
fn its_replies_have_the_same_text(rt: HostRuntime) -> Result<(), Fail> {
    let alloc = rt.alloc();
    let trace = trace(alloc)?;
    let replies = run_serial(alloc, &trace)?;
    assert_eq!(rt; replies.as_slice().len(), 4172);
    check_texts(&rt, alloc, &trace, &replies)
}

/// The text of the replies at once, and reply by reply.
fn check_texts(rt: &impl Abort, alloc: Global, trace: &Trace, replies: &Replies) -> Result<(), Fail>
    requires { length trace.now.lines ≡ length replies.now.items }
{
    let told = told(alloc)?;
    assert!(rt; text_of(alloc, trace, replies)? == told);
    assert!(rt; put_all(alloc, trace, replies)? == told);
    Ok(())
}

fn put_all(alloc: Global, trace: &Trace, replies: &Replies) -> Result<String, Fail> {
    let mut text = String::new(alloc);
    for (line, reply) in trace.lines.as_slice().iter().zip(replies.as_slice()) {
        put_reply(&mut text, line, reply)?;
    }
    Ok(text)
}

#[test]
fn its_last_table_is_counted(rt: HostRuntime) -> Result<(), Fail> {
    let alloc = rt.alloc();
    let trace = trace(alloc)?;
    let ran = run_with_table(alloc, &trace)?;
    check_summary(&rt, alloc, &trace, &ran)
}

fn check_summary(rt: &impl Abort, alloc: Global, trace: &Trace, ran: &Ran) -> Result<(), Fail> {
    assert_eq!(rt; ran.table.states.as_slice().len(), 2048);
    let summary = summary_of(alloc, trace, &ran.replies, &ran.table)?;
    assert_eq!(rt; summary.as_str(), SUMMARY);
    Ok(())
}
