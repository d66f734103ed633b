//! Parallel runs that a gate holds, so that a schedule is forced.
use super::{accepted, replies, serial_text};
use reply_text::text_of;
use std::alloc::Global;
use std::sync::Wait;
use std::sync::atomic::{AtomicU64, Ordering};
use std::test::Fail;
use std::thread::Threads;
use trace_runner::{Gate, OpenGate, parallel_to_text, run_parallel};

/// The text of the replies of a parallel run.
fn together<R: Threads + Wait + Sync, G: Gate + Sync>(
    rt: &R,
    alloc: Global,
    input: &str,
    gate: &G,
) -> Result<String, Fail> {
    let trace = accepted(alloc, input)?;
    let replies = run_parallel(rt, alloc, &trace, gate)?;
    Ok(text_of(alloc, &trace, &replies)?)
}

/// Something that a processor may wait for.
#[derive(Drop)]
struct Flag(AtomicU64);

impl Flag {
    fn new() -> Self {
        Flag(AtomicU64::new(0))
    }

    fn raise(&self) {
        self.0.store(1, Ordering::SeqCst);
    }

    fn is_up(&self) -> bool {
        self.0.load(Ordering::SeqCst) == 1
    }

    /// Waits for at most 2^28 turns; `late` is raised where that was too short.
    fn wait(&self, late: &Flag) {
        for _ in 0..1 << 28 {
            if self.is_up() {
                return;
            }
        }
        late.raise();
    }
}

/// Holds processor 0 before line 5 until line 6 was answered.
#[derive(Drop)]
struct HoldFirst {
    answered: Flag,
    late: Flag,
}

impl Gate for HoldFirst {
    fn before(&self, _cpu: u32, line: u32) {
        if line == 5 {
            self.answered.wait(&self.late);
        }
    }

    fn step(&self, _cpu: u32, _line: u32) {}

    fn held(&self, _cpu: u32, _line: u32) {}

    fn after(&self, _cpu: u32, line: u32) {
        if line == 6 {
            self.answered.raise();
        }
    }
}

impl HoldFirst {
    fn new() -> Self {
        HoldFirst {
            answered: Flag::new(),
            late: Flag::new(),
        }
    }
}

/// Two processors that enter the same entry.
const ONE_ENTRY: &str = "order 18
cpus 2
ram 0x0 0x2000000000 0x40000000
begin
0 H_ENTER 0x8000000000 0x20 0x1001 0x3012
1 H_ENTER 0x8000000000 0x20 0x1001 0x4012
";

/// The text where the second of them comes first.
const SECOND_FIRST: &str = "5 0 H_ENTER -6 | 0x20.1.0.taken
6 1 H_ENTER 0 0x20 | 0x20.0.0.entered
";

#[test]
fn processors_run_beside_each_other(rt: HostRuntime) -> Result<(), Fail> {
    let gate = HoldFirst::new();
    assert_eq!(rt;
        together(&rt, rt.alloc(), ONE_ENTRY, &gate)?.as_str(),
        SECOND_FIRST
    );
    assert!(rt; !gate.late.is_up());
    Ok(())
}

#[test]
fn processors_write_their_texts_beside_each_other(rt: HostRuntime) -> Result<(), Fail> {
    let alloc = rt.alloc();
    let gate = HoldFirst::new();
    let trace = accepted(alloc, ONE_ENTRY)?;
    assert_eq!(rt;
        parallel_to_text(&rt, alloc, &trace, &gate)?.as_str(),
        SECOND_FIRST
    );
    assert!(rt; !gate.late.is_up());
    Ok(())
}

/// Holds processor 1 before line 6 until processor 0 reached `step` in line 5, and that step until
/// line 6 was answered.
#[derive(Drop)]
struct HoldStep {
    reached: Flag,
    answered: Flag,
    late: Flag,
}

impl Gate for HoldStep {
    fn before(&self, _cpu: u32, line: u32) {
        if line == 6 {
            self.reached.wait(&self.late);
        }
    }

    fn step(&self, _cpu: u32, line: u32) {
        if line == 5 {
            self.reached.raise();
            self.answered.wait(&self.late);
        }
    }

    fn held(&self, _cpu: u32, _line: u32) {}

    fn after(&self, _cpu: u32, line: u32) {
        if line == 6 {
            self.answered.raise();
        }
    }
}

impl HoldStep {
    fn new() -> Self {
        HoldStep {
            reached: Flag::new(),
            answered: Flag::new(),
            late: Flag::new(),
        }
    }
}

#[test]
fn another_call_comes_between_two_operations(rt: HostRuntime) -> Result<(), Fail> {
    let gate = HoldStep::new();
    let input = "order 18
cpus 2
ram 0x0 0x2000000000 0x40000000
begin
0 H_BULK_REMOVE 0x4000000000000020 0 0x4000000000000021 0 0xc000000000000000 0 0 0
1 H_ENTER 0x8000000000 0x21 0x1001 0x3012
";
    assert_eq!(rt;
        together(&rt, rt.alloc(), input, &gate)?.as_str(),
        "5 0 H_BULK_REMOVE 0 0x9000000000000020 0x0 0x8000000000000021 0x0 \
         0xc000000000000000 0x0 0x0 0x0 | 0x20.0.0.notfound 0x21.1.0.removed
6 1 H_ENTER 0 0x21 | 0x21.0.0.entered
"
    );
    assert!(rt; !gate.late.is_up());
    Ok(())
}

#[test]
fn a_put_is_busy_where_another_came_between_its_steps(rt: HostRuntime) -> Result<(), Fail> {
    let gate = HoldStep::new();
    let input = "cpus 2
ram 0x0 0x2000000000 0x40000000
window 0x1 0x0 0x1
begin
0 H_PUT_TCE 0x1 0x0 0x3001
1 H_PUT_TCE 0x1 0x0 0x4001
";
    assert_eq!(rt;
        together(&rt, rt.alloc(), input, &gate)?.as_str(),
        "5 0 H_PUT_TCE 1 | 0x0.0.0.notfound 0x0.1.0.taken
6 1 H_PUT_TCE 0 | 0x0.0.0.notfound 0x0.0.0.entered
"
    );
    assert!(rt; !gate.late.is_up());
    Ok(())
}

/// Holds processors 1 and 2 before their lines until processor 0 holds its entry in line 5, and
/// there until line 6 was answered, line 7 was begun, and some turns have passed.
#[derive(Drop)]
struct HoldHeld {
    reached: Flag,
    answered: Flag,
    begun: Flag,
    ended: Flag,
    early: Flag,
    late: Flag,
}

impl Gate for HoldHeld {
    fn before(&self, _cpu: u32, line: u32) {
        if line == 6 || line == 7 {
            self.reached.wait(&self.late);
        }
        if line == 7 {
            self.begun.raise();
        }
    }

    fn step(&self, _cpu: u32, _line: u32) {}

    fn held(&self, _cpu: u32, line: u32) {
        if line != 5 {
            return;
        }
        self.reached.raise();
        self.answered.wait(&self.late);
        self.begun.wait(&self.late);
        for _ in 0..1 << 20 {
            if self.ended.is_up() {
                self.early.raise();
            }
        }
    }

    fn after(&self, _cpu: u32, line: u32) {
        if line == 6 {
            self.answered.raise();
        }
        if line == 7 {
            self.ended.raise();
        }
    }
}

#[test]
fn a_held_entry_holds_up_no_other(rt: HostRuntime) -> Result<(), Fail> {
    let gate = HoldHeld {
        reached: Flag::new(),
        answered: Flag::new(),
        begun: Flag::new(),
        ended: Flag::new(),
        early: Flag::new(),
        late: Flag::new(),
    };
    let input = "order 18
cpus 3
ram 0x0 0x2000000000 0x40000000
begin
0 H_ENTER 0x8000000000 0x20 0x1001 0x3012
1 H_ENTER 0x8000000000 0x28 0x1001 0x4012
2 H_READ 0x0 0x20
";
    assert_eq!(rt;
        together(&rt, rt.alloc(), input, &gate)?.as_str(),
        "5 0 H_ENTER 0 0x20 | 0x20.0.0.entered
6 1 H_ENTER 0 0x28 | 0x28.0.0.entered
7 2 H_READ 0 0x1001 0x3012 | 0x20.1.0.read
"
    );
    assert!(rt; !gate.late.is_up());
    assert!(rt; !gate.early.is_up());
    Ok(())
}

/// Processor 1 alone enters and loads; processor 0 has the resize calls.
const QUIET_LINES: &str = "order 18
cpus 2
ram 0x0 0x2000000000 0x40000000
begin
1 slbmte 0x8000000 0x1000
1 H_ENTER 0x8000000000 0x20 0x1011 0x3012
1 load 0x5000 priv
1 load 0x5000 priv
0 H_RESIZE_HPT_PREPARE 0x0 19
1 load 0x5000 priv
0 H_RESIZE_HPT_PREPARE 0x0 19
0 H_RESIZE_HPT_COMMIT 0x0 19
dump
1 load 0x5000 priv
";

#[test]
fn quiet_lines_cut_a_parallel_run(rt: HostRuntime) -> Result<(), Fail> {
    let alloc = rt.alloc();
    assert_eq!(rt;
        together(&rt, alloc, QUIET_LINES, &OpenGate)?.as_str(),
        replies(alloc, QUIET_LINES)?.as_str()
    );
    Ok(())
}

/// Two processors, each of which has lines on the page table and on a window of its own, in two
/// sections.
const WINDOWS: &str = "order 18
cpus 2
ram 0x0 0x2000000000 0x40000000
window 0x1 0x0 0x1
window 0x2 0x0 0x1
begin
0 H_PUT_TCE 0x1 0x0 0x3003
1 H_PUT_TCE 0x2 0x0 0x4001
0 H_ENTER 0x8000000000 0x0 0x1011 0x3012
1 H_ENTER 0x8000000000 0x8 0x2011 0x4012
0 dmawrite 0x1 0x8
1 dmawrite 0x2 0x8
dump
1 H_GET_TCE 0x2 0x0
0 H_GET_TCE 0x1 0x0
0 H_PUT_TCE 0x1 0x0 0x0
";

#[test]
fn the_stores_of_a_section_are_put_together_in_file_order(rt: HostRuntime) -> Result<(), Fail> {
    let alloc = rt.alloc();
    assert_eq!(rt;
        together(&rt, alloc, WINDOWS, &OpenGate)?.as_str(),
        replies(alloc, WINDOWS)?.as_str()
    );
    Ok(())
}

#[test]
fn the_text_of_one_processor_is_that_of_the_serial_run(rt: HostRuntime) -> Result<(), Fail> {
    let alloc = rt.alloc();
    let trace = accepted(alloc, QUIET_LINES)?;
    assert_eq!(rt;
        parallel_to_text(&rt, alloc, &trace, &OpenGate)?.as_str(),
        serial_text(alloc, &trace)?.as_str()
    );
    Ok(())
}

#[test]
fn the_texts_of_all_processors_stand_in_file_order(rt: HostRuntime) -> Result<(), Fail> {
    let alloc = rt.alloc();
    let input = "order 18
cpus 3
ram 0x0 0x2000000000 0x40000000
begin
2 H_ENTER 0x8000000000 0x20 0x1001 0x3012
0 slbmte 0x8000000 0x1000
1 H_ENTER 0x8000000000 0x28 0x1001 0x4012
0 slbclear
2 H_READ 0x0 0x20
";
    let trace = accepted(alloc, input)?;
    assert_eq!(rt;
        parallel_to_text(&rt, alloc, &trace, &OpenGate)?.as_str(),
        replies(alloc, input)?.as_str()
    );
    Ok(())
}

/// How often the gate was called at each of its places.
#[derive(Drop)]
struct Counts {
    before: AtomicU64,
    step: AtomicU64,
    held: AtomicU64,
    after: AtomicU64,
}

impl Gate for Counts {
    fn before(&self, _cpu: u32, _line: u32) {
        self.before.fetch_add(1, Ordering::SeqCst);
    }

    fn step(&self, _cpu: u32, _line: u32) {
        self.step.fetch_add(1, Ordering::SeqCst);
    }

    fn held(&self, _cpu: u32, _line: u32) {
        self.held.fetch_add(1, Ordering::SeqCst);
    }

    fn after(&self, _cpu: u32, _line: u32) {
        self.after.fetch_add(1, Ordering::SeqCst);
    }
}

#[test]
fn the_gate_is_called_at_each_line_and_operation(rt: HostRuntime) -> Result<(), Fail> {
    let gate = Counts {
        before: AtomicU64::new(0),
        step: AtomicU64::new(0),
        held: AtomicU64::new(0),
        after: AtomicU64::new(0),
    };
    // An H_ENTER of one operation, an H_READ of four, and an H_REMOVE of an index past the table.
    let input = "order 18
cpus 1
ram 0x0 0x2000000000 0x40000000
begin
0 H_ENTER 0x8000000000 0x20 0x1001 0x3012
0 H_READ 0x2000000000 0x20
0 H_REMOVE 0x0 0x40000 0x0
";
    together(&rt, rt.alloc(), input, &gate)?;
    assert_eq!(rt; gate.before.load(Ordering::SeqCst), 3);
    assert_eq!(rt; gate.after.load(Ordering::SeqCst), 3);
    assert_eq!(rt; gate.step.load(Ordering::SeqCst), 3);
    assert_eq!(rt; gate.held.load(Ordering::SeqCst), 5);
    Ok(())
}
