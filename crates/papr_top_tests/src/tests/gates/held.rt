//! The gate holds one processor while another one gets on. Where lines ran one after the other, the
//! wait would end too late.
use super::answered;
use super::calls::{Calls, Hold, Place, held_until};
use papr_top::Status;
use std::alloc::Global;
use std::process::Abort;
use std::sync::Wait;
use std::test::Fail;
use std::thread::Threads;

/// A trace, who is held where, and the result: the text, and the gate's calls for each processor.
#[derive(Drop)]
struct Held<'a> {
    input: &'a str,
    holds: &'a [Hold],
    text: &'a str,
    calls: &'a [(u64, &'a str)],
    count: u64,
}

/// Runs the trace by threads, and compares what came of it.
fn run_held<R: Abort + Threads + Wait + Sync>(
    rt: &R,
    alloc: Global,
    row: &Held,
) -> Result<(), Fail> {
    let gate = Calls::new(alloc, row.holds)?;
    let (status, text) = answered(rt, alloc, &["par"], row.input, &gate)?;
    assert_eq!(rt; (status, text.as_str()), (Status::Done, row.text));
    assert!(rt; gate.is_kept());
    for (cpu, calls) in row.calls {
        assert_eq!(rt; gate.of(alloc, *cpu)?.as_str(), *calls);
    }
    assert_eq!(rt; gate.count(), row.count);
    Ok(())
}

/// Processor 1 is held before line 5 until line 6 was answered.
#[test]
fn a_line_is_answered_while_an_earlier_one_waits(rt: HostRuntime) -> Result<(), Fail> {
    let row = Held {
        input: "order 18
cpus 3
ram 0x0 0x2000000000 0x40000000
begin
1 H_ENTER 0x8000000000 0x20 0x1001 0x3012
2 H_ENTER 0x8000000000 0x20 0x1001 0x4012
",
        holds: &[held_until((Place::Before, 5), (Place::After, 6), true)],
        text: "5 1 H_ENTER -6 | 0x20.1.0.taken
6 2 H_ENTER 0 0x20 | 0x20.0.0.entered
",
        calls: &[
            (1, "before 1 5\nheld 1 5\nafter 1 5\n"),
            (2, "before 2 6\nheld 2 6\nafter 2 6\n"),
        ],
        count: 6,
    };
    run_held(&rt, rt.alloc(), &row)
}

/// Processor 2 is held before line 6 until processor 1 reaches `step` in line 5, and that step
/// until line 6 was answered.
#[test]
fn an_entry_is_made_between_two_pairs_of_a_bulk_removal(rt: HostRuntime) -> Result<(), Fail> {
    let row = Held {
        input: "order 18
cpus 3
ram 0x0 0x2000000000 0x40000000
begin
1 H_BULK_REMOVE 0x4000000000000020 0 0x4000000000000021 0 0xc000000000000000 0 0 0
2 H_ENTER 0x8000000000 0x21 0x1001 0x3012
",
        holds: &[
            held_until((Place::Before, 6), (Place::Step, 5), true),
            held_until((Place::Step, 5), (Place::After, 6), true),
        ],
        text: "5 1 H_BULK_REMOVE 0 0x9000000000000020 0x0 0x8000000000000021 0x0 \
            0xc000000000000000 0x0 0x0 0x0 | 0x20.0.0.notfound 0x21.1.0.removed
6 2 H_ENTER 0 0x21 | 0x21.0.0.entered
",
        calls: &[
            (1, "before 1 5\nheld 1 5\nstep 1 5\nheld 1 5\nafter 1 5\n"),
            (2, "before 2 6\nheld 2 6\nafter 2 6\n"),
        ],
        count: 8,
    };
    run_held(&rt, rt.alloc(), &row)
}

/// Processors 2 and 3 are held before their lines until processor 1 holds its entry in line 5. That
/// is held until line 6 was answered and line 7 was begun, and line 7 doesn't end meanwhile.
#[test]
fn a_third_processor_waits_for_a_held_entry_and_another_does_not(
    rt: HostRuntime,
) -> Result<(), Fail> {
    let row = Held {
        input: "order 18
cpus 4
ram 0x0 0x2000000000 0x40000000
begin
1 H_ENTER 0x8000000000 0x20 0x1001 0x3012
2 H_ENTER 0x8000000000 0x28 0x1001 0x4012
3 H_READ 0x0 0x20
",
        holds: &[
            held_until((Place::Before, 6), (Place::Held, 5), true),
            held_until((Place::Before, 7), (Place::Held, 5), true),
            held_until((Place::Held, 5), (Place::After, 6), true),
            held_until((Place::Held, 5), (Place::Before, 7), true),
            held_until((Place::Held, 5), (Place::After, 7), false),
        ],
        text: "5 1 H_ENTER 0 0x20 | 0x20.0.0.entered
6 2 H_ENTER 0 0x28 | 0x28.0.0.entered
7 3 H_READ 0 0x1001 0x3012 | 0x20.1.0.read
",
        calls: &[
            (1, "before 1 5\nheld 1 5\nafter 1 5\n"),
            (2, "before 2 6\nheld 2 6\nafter 2 6\n"),
            (3, "before 3 7\nheld 3 7\nafter 3 7\n"),
        ],
        count: 9,
    };
    run_held(&rt, rt.alloc(), &row)
}

/// An entry that is held isn't shut yet: an access needs no lock, and the removal then shows the R
/// that it set. Processor 2 is held before line 9 until processor 1 holds its entry in line 8, and
/// that until line 9 was answered.
#[test]
fn a_load_is_answered_by_an_entry_that_is_held(rt: HostRuntime) -> Result<(), Fail> {
    let row = Held {
        input: "order 18
cpus 3
ram 0x0 0x2000000000 0x40000000
begin
2 slbmte 0x8000000 0x1000
0 H_ENTER 0x8000000000 0x20 0x1001 0x3012
dump
1 H_REMOVE 0x0 0x20 0x0
2 load 0x5000 priv
",
        holds: &[
            held_until((Place::Before, 9), (Place::Held, 8), true),
            held_until((Place::Held, 8), (Place::After, 9), true),
        ],
        text: "5 2 slbmte ok
6 0 H_ENTER 0 0x20 | 0x20.0.0.entered
7 dump table 0 order 18 place 0x1000000000 entries 1
 0x20 0x1001 0x3012 1
8 1 H_REMOVE 0 0x1001 0x3112 | 0x20.1.2.removed
9 2 load at 0x2000003000 walk | 0x20.1.0.at
",
        calls: &[
            (0, "before 0 6\nheld 0 6\nafter 0 6\n"),
            (1, "before 1 8\nheld 1 8\nafter 1 8\n"),
            (2, "before 2 5\nafter 2 5\nbefore 2 9\nafter 2 9\n"),
        ],
        count: 10,
    };
    run_held(&rt, rt.alloc(), &row)
}

/// Processor 1 is held before line 6 until line 7, on the same window, was answered.
#[test]
fn a_line_on_a_window_is_answered_while_an_earlier_one_waits(rt: HostRuntime) -> Result<(), Fail> {
    let row = Held {
        input: "order 18
cpus 3
ram 0x0 0x2000000000 0x40000000
window 0x10 0x0 16
begin
1 H_PUT_TCE 0x10 0x5000 0x3003
2 H_PUT_TCE 0x10 0x5000 0x4003
",
        holds: &[held_until((Place::Before, 6), (Place::After, 7), true)],
        text: "6 1 H_PUT_TCE 0 | 0x5.1.0.removed 0x5.2.0.entered
7 2 H_PUT_TCE 0 | 0x5.0.0.notfound 0x5.0.0.entered
",
        calls: &[
            (1, "before 1 6\nheld 1 6\nstep 1 6\nheld 1 6\nafter 1 6\n"),
            (2, "before 2 7\nheld 2 7\nstep 2 7\nheld 2 7\nafter 2 7\n"),
        ],
        count: 10,
    };
    run_held(&rt, rt.alloc(), &row)
}
