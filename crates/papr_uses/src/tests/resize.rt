//! The two resize calls on a partition: their codes in turn, and which entries the new table has.
ghost use Rattle.std.specs.Prelude.{◌≡◌, ◌≤◌, ◌%◌, ◌^◌, IfOk};
ghost use Rattle.partition.specs.PartitionState.{HasStates};
ghost use Rattle.hpte_fields.specs.TableSize.{least_order};
ghost use Rattle.trace_read.specs.Configuration.{greatest_trace_order};
ghost use Rattle.pool_range.specs.Ranges.{greatest_pool_order};

use super::entry;
use crate::resize;
use entry_model::EntryState;
use frame_grants::Grants;
use papr_codes::Rc;
use partition::Partition;
use std::alloc::{AllocError, Global};
use std::process::Abort;
use std::test::Fail;
use trace_read::{Config, EntryLines, WindowLines};

/// A partition with a table of the lowest order.
fn smallest(alloc: Global, limit: u8, pool_order: u8) -> Result<Partition, AllocError>
    requires limit_low { least_order ≤ limit }
    requires limit_high { limit ≤ greatest_trace_order }
    requires pool_low { 19 ≤ pool_order }
    requires pool_high { pool_order ≤ greatest_pool_order }
    requires pool_aligned { 0x1000000000 % 2 ^ pool_order ≡ 0 }
    ensures memory { IfOk result HasStates }
    ensures order { IfOk result (λ partition. partition.memory.table.order ≡ 18) }
    ensures first { IfOk result (λ partition. partition.memory.table.number ≡ 0) }
{
    let config = Config {
        order: 18,
        limit,
        cpus: 1,
        pool_base: 0x10_0000_0000,
        pool_order,
        grants: Grants::new(0x10_0000_0000, pool_order),
        entries: EntryLines::new(alloc),
        windows: WindowLines::new(),
    };
    Partition::open(alloc, &config)
}

/// Which resize call.
#[derive(Clone, Copy)]
enum Call {
    Prepare,
    Commit,
}

/// A call, its flags and order, and its code.
type CallRow = (Call, u64, u64, Rc);

/// The code of a call on a partition that has had few tables.
fn code_of(
    alloc: Global,
    partition: &mut Partition,
    call: Call,
    flags: u64,
    order: u64,
) -> Result<Rc, AllocError>
    requires { HasStates partition.old }
    ensures { HasStates partition.new }
{
    match call {
        Call::Prepare => Ok(partition.prepare(alloc, flags, order)?.rc),
        Call::Commit => {
            // No test makes so many.
            if partition.table() > 9 {
                return Ok(Rc::Hardware);
            }
            Ok(partition.commit(flags, order).rc)
        }
    }
}

/// The calls are answered by these codes.
fn check_calls(
    rt: &impl Abort,
    alloc: Global,
    partition: &mut Partition,
    calls: &[CallRow],
) -> Result<(), Fail>
    requires { HasStates partition.old }
    ensures { HasStates partition.new }
{
    for (call, flags, order, code) in calls {
        assert_eq!(rt; code_of(alloc, partition, *call, *flags, *order)?, *code);
    }
    Ok(())
}

/// The partition has a table of this number, order and place, and so many valid entries.
fn check_table(rt: &impl Abort, partition: &Partition, table: (u32, u8, u64), valid: usize)
    requires { HasStates partition.now }
{
    let found = (partition.table(), partition.order(), partition.place());
    assert_eq!(rt; found, table);
    let states = partition.states().iter();
    assert_eq!(rt; states.filter(|state| state.valid).count(), valid);
}

/// Puts a state at an entry.
fn put(partition: &mut Partition, entry: usize, state: EntryState)
    requires { HasStates partition.old }
    ensures { HasStates partition.new }
{
    let mut states = partition.take_states();
    if let Some(place) = states.get_mut(entry) {
        *place = state;
    }
    partition.put_states(states);
}

#[test]
fn the_largest_table_is_ready_after_sixteen_calls(rt: HostRuntime) -> Result<(), Fail> {
    let mut partition = smallest(rt.alloc(), 22, 24)?;
    let waits = [(Call::Prepare, 0, 22, Rc::LongBusy); 15];
    check_calls(&rt, rt.alloc(), &mut partition, &waits)?;
    let ends = [
        (Call::Commit, 0, 22, Rc::Busy),
        (Call::Prepare, 0, 22, Rc::Success),
        (Call::Commit, 0, 22, Rc::Success),
    ];
    check_calls(&rt, rt.alloc(), &mut partition, &ends)?;
    check_table(&rt, &partition, (1, 22, 0x10_0040_0000), 0);
    Ok(())
}

/// Calls on a partition of a limit of 20, whose pool has room for two tables of order 18.
const IN_TURN: &[CallRow] = &[
    (Call::Commit, 0, 19, Rc::Closed),
    (Call::Prepare, 0, 17, Rc::Parameter),
    (Call::Prepare, 0, 21, Rc::Resource),
    (Call::Prepare, 0, 19, Rc::NoMem),
    (Call::Prepare, 0, 18, Rc::Success),
    (Call::Prepare, 0, 0, Rc::Success),
    (Call::Commit, 0, 18, Rc::Closed),
    (Call::Commit, 1, 18, Rc::Parameter),
];

#[test]
fn what_the_calls_answer_in_turn(rt: HostRuntime) -> Result<(), Fail> {
    let mut partition = smallest(rt.alloc(), 20, 19)?;
    check_calls(&rt, rt.alloc(), &mut partition, IN_TURN)?;
    check_table(&rt, &partition, (0, 18, 0x10_0000_0000), 0);
    Ok(())
}

/// A table of order 19 is made ready and committed.
const GROWS: &[CallRow] = &[
    (Call::Prepare, 0, 19, Rc::LongBusy),
    (Call::Prepare, 0, 19, Rc::Success),
    (Call::Commit, 0, 19, Rc::Success),
];

#[test]
fn only_bolted_entries_of_a_page_are_in_the_new_table(rt: HostRuntime) -> Result<(), Fail> {
    let mut partition = smallest(rt.alloc(), 22, 24)?;
    // the page of VSID 0x801 and index 5, in its group
    put(
        &mut partition,
        0x20,
        entry(0x80_1011, 0x3012, (true, false), 7),
    );
    // bolted, and not in the group of its page
    put(
        &mut partition,
        0x400,
        entry(0x1015, 0x1_1012, (true, false), 7),
    );
    // not bolted
    put(
        &mut partition,
        0x21,
        entry(0x1001, 0x4012, (true, false), 7),
    );
    check_calls(&rt, rt.alloc(), &mut partition, GROWS)?;
    check_table(&rt, &partition, (1, 19, 0x10_0008_0000), 1);
    let carried = partition.states().get(0x4020).map(|state| state.words());
    assert_eq!(rt; carried, Some((0x80_1011, 0x3112)));
    Ok(())
}

/// Two entries meet in a table of order 18, which is dropped.
const COLLIDES: &[CallRow] = &[
    (Call::Prepare, 0, 18, Rc::Success),
    (Call::Commit, 0, 18, Rc::PtegFull),
    (Call::Commit, 0, 18, Rc::Closed),
];

#[test]
fn a_collision_leaves_the_old_table(rt: HostRuntime) -> Result<(), Fail> {
    let mut partition = smallest(rt.alloc(), 22, 24)?;
    put(
        &mut partition,
        0x20,
        entry(0x80_1011, 0x3012, (true, false), 7),
    );
    check_calls(&rt, rt.alloc(), &mut partition, GROWS)?;
    put(
        &mut partition,
        0x20,
        entry(0x1011, 0x4012, (true, false), 7),
    );
    check_calls(&rt, rt.alloc(), &mut partition, COLLIDES)?;
    check_table(&rt, &partition, (1, 19, 0x10_0008_0000), 2);
    Ok(())
}

#[test]
fn the_largest_table_in_one_go(rt: HostRuntime) -> Result<(), Fail> {
    let mut partition = smallest(rt.alloc(), 22, 24)?;
    assert_eq!(rt; resize(&mut partition, rt.alloc(), 22), Ok(Rc::Success));
    assert_eq!(rt; (partition.table(), partition.order()), (1, 22));
    Ok(())
}

#[test]
fn a_table_that_the_pool_has_no_room_for(rt: HostRuntime) -> Result<(), Fail> {
    let mut partition = smallest(rt.alloc(), 20, 19)?;
    assert_eq!(rt; resize(&mut partition, rt.alloc(), 19), Ok(Rc::NoMem));
    assert_eq!(rt; (partition.table(), partition.order()), (0, 18));
    Ok(())
}
