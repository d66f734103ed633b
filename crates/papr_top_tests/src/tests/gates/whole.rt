//! Each call of the gate in a run of one processor, which has lines of every kind.
use super::answered;
use super::calls::Calls;
use papr_top::Status;
use std::test::Fail;

/// Calls of one operation, of four and of none; a walk, a hit, and a walk past a line that is gone;
/// lines that use no entry; a window's lines between those on the page table; and a quiet line.
const TRACE: &str = "order 18
cpus 3
ram 0x0 0x2000000000 0x40000000
window 0x1 0x0 0x1
begin
2 slbmte 0x8000000 0x1000
2 H_PUT_TCE 0x1 0x0 0x3003
2 H_ENTER 0x0 0x20 0x1001 0x3012
2 H_READ 0x2000000000 0x20
2 H_REMOVE 0x0 0x40000 0x0
2 load 0x5000 priv
2 load 0x5000 priv
2 dmawrite 0x1 0x8
2 H_PROTECT 0x2 0x20 0x0
2 load 0x5000 priv
2 amr 0x1
2 iamr 0x0
dump
2 slbclear
2 load 0x5000 priv
";

const REPLIES: &str = "6 2 slbmte ok
7 2 H_PUT_TCE 0 | 0x0.0.0.notfound 0x0.0.0.entered
8 2 H_ENTER 0 0x20 | 0x20.0.0.entered
9 2 H_READ 0 0x1001 0x3012 0x0 0x0 0x0 0x0 0x0 0x0 \
    | 0x20.1.0.read 0x21.0.0.read 0x22.0.0.read 0x23.0.0.read
10 2 H_REMOVE -4
11 2 load at 0x2000003000 walk | 0x20.1.0.at
12 2 load at 0x2000003000 hit | 0x20.1.2.at
13 2 dmawrite at 0x2000003008 | 0x0.1.0.read
14 2 H_PROTECT 0 | 0x20.1.2.protected
15 2 load at 0x2000003000 walk | 0x20.2.2.at
16 2 amr ok
17 2 iamr ok
18 dump table 0 order 18 place 0x1000000000 entries 1
 0x20 0x1001 0x3112 2
19 2 slbclear ok
20 2 load nosegment
";

/// Before and after each line; at a step before each operation but the line's first; held at each
/// operation but accesses, which take no lock. The lines on the page table come first in a section,
/// and then those on the window. The quiet line 18 isn't run by a thread.
const CALLS: &str = "before 2 6
after 2 6
before 2 8
held 2 8
after 2 8
before 2 9
held 2 9
step 2 9
held 2 9
step 2 9
held 2 9
step 2 9
held 2 9
after 2 9
before 2 10
after 2 10
before 2 11
after 2 11
before 2 12
after 2 12
before 2 14
held 2 14
after 2 14
before 2 15
step 2 15
after 2 15
before 2 16
after 2 16
before 2 17
after 2 17
before 2 7
held 2 7
step 2 7
held 2 7
after 2 7
before 2 13
held 2 13
after 2 13
before 2 19
after 2 19
before 2 20
after 2 20
";

#[test]
fn the_gate_is_called_at_each_place_of_each_line(rt: HostRuntime) -> Result<(), Fail> {
    let alloc = rt.alloc();
    let gate = Calls::new(alloc, &[])?;
    let (status, text) = answered(&rt, alloc, &["par"], TRACE, &gate)?;
    assert_eq!(rt; (status, text.as_str()), (Status::Done, REPLIES));
    assert_eq!(rt; gate.of(alloc, 2)?.as_str(), CALLS);
    assert_eq!(rt; gate.count(), 42);
    Ok(())
}
