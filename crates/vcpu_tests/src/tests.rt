//! One processor at a smallest page table: hits, walks, translations pushed out of the cache, and
//! refusals, each access with its outcome and its last receipt.
ghost use Rattle.std.specs.Prelude.{◌≡◌, ◌<◌, ◌-◌, ◌^◌, IfOk};
ghost use Rattle.hpte_fields.specs.TableSize.{entry_count};
ghost use Rattle.tlb_model.specs.Cache.{AllCached, empty_cache};
ghost use Rattle.entry_model.specs.Receipt.{IsNormal};

use entry_model::{AccessReply, Answer, By, EntryState, EntryStore, Op, Outcome, Test};
use frame_grants::{Grant, Grants, Kind};
use papr_table::PlainTable;
use slb_model::BadSlb;
use std::alloc::{AllocError, Global};
use std::process::Abort;
use std::test::Fail;
use storage_prot::Want;
use vcpu::*;

/// The order of the smallest table, and how many entries it has.
const ORDER: u8 = 18;

const ENTRIES: usize = 16384;

/// 1 GB of memory, from the machine address 0x20_0000_0000.
const MEMORY: Grant = Grant {
    logical: 0,
    machine: 0x20_0000_0000,
    length: 0x4000_0000,
    kind: Kind::Ram,
};

/// One operation by itself, on a store that has seen the lines that the processor has cached.
fn apply_beside<T: EntryStore>(cpu: &Cpu, store: &mut T, entry: u32, op: Op) -> Answer
    requires seen { AllCached (T.seen store.old) cpu.now.cache }
    requires in_table { entry < entry_count (T.table_order store.old) }
    requires normal { IsNormal op }
    ensures { AllCached (T.seen store.new) cpu.now.cache }
{
    let receipt = store.apply(entry, op);
    receipt.answer
}

/// Two accesses at 0x5000 in privileged state, an operation on entry 0x20, and a third access.
fn three_accesses<T: EntryStore>(
    cpu: &mut Cpu,
    store: &mut T,
    grants: &Grants,
    want: Want,
    between: Op,
) -> (AccessReply, AccessReply, AccessReply)
    requires empty { cpu.old.cache ≡ empty_cache }
    requires in_table { 0x20 < entry_count (T.table_order store.old) }
    requires normal { IsNormal between }
{
    let first = cpu.access(store, grants, 0x5000, want, false);
    let second = cpu.access(store, grants, 0x5000, want, false);
    apply_beside(cpu, store, 0x20, between);
    let third = cpu.access(store, grants, 0x5000, want, false);
    (first, second, third)
}

/// A processor with one segment at address 0, as the second word of its segment entry says.
fn cpu_with(rt: &impl Abort, segment: u64) -> Cpu
    ensures { result.cache ≡ empty_cache }
{
    let mut cpu = Cpu::new();
    let done = cpu.mte(0x800_0000, segment);
    assert_eq!(rt; done, Ok(()));
    cpu
}

/// A processor with the segment 1 of 256 MB, in pages of 4 KB and with both keys 0, at address 0.
fn cpu_with_segment(rt: &impl Abort) -> Cpu
    ensures { result.cache ≡ empty_cache }
{
    cpu_with(rt, 0x1000)
}

fn memory() -> Grants {
    let mut grants = Grants::new(0x10_0000_0000, 18);
    let _ = grants.add(MEMORY);
    grants
}

fn empty_table(alloc: Global) -> Result<PlainTable, AllocError>
    ensures { IfOk result (λ t. t.order ≡ 18) }
{
    let states = vec![in alloc; EntryState::empty(0); ENTRIES]?;
    Ok(PlainTable::open(states, ORDER))
}

/// Fills an entry of any store.
fn enter<T: EntryStore>(store: &mut T, entry: u32, dword0: u64, dword1: u64)
    requires in_table { entry < entry_count (T.table_order store.old) }
    requires normal { IsNormal (Op.Enter dword0 dword1) }
    ensures { T.table_order store.new ≡ T.table_order store.old }
{
    store.apply(entry, Op::Enter { dword0, dword1 });
}

/// An access ended so and by this way, and its last receipt is of this entry at this stamp.
fn assert_reply(
    rt: &impl Abort,
    reply: &AccessReply,
    outcome: Outcome,
    by: By,
    entry: u32,
    stamp: u32,
) {
    assert_eq!(rt; reply.outcome, outcome);
    assert_eq!(rt; reply.by, Some(by));
    let last = reply.receipts.as_slice().last();
    assert_eq!(rt;
        last.map(|r| (r.entry, r.before.stamp)),
        Some((entry, stamp))
    );
}

#[test]
fn a_line_is_used_until_its_entry_changes(rt: HostRuntime) -> Result<(), Fail> {
    let mut cpu = cpu_with_segment(&rt);
    let mut table = empty_table(rt.alloc())?;
    enter(&mut table, 0x20, 0x1001, 0x3012);
    let test = Test {
        avpn: None,
        andcond: None,
    };
    let between = Op::Protect { test, flags: 0x2 };
    let (first, second, third) = three_accesses(
        &mut cpu,
        &mut table,
        &memory(),
        Want::Load,
        between,
    );
    let at = Outcome::At(0x20_0000_3000);
    assert_reply(&rt, &first, at, By::Walk, 0x20, 1);
    assert_reply(&rt, &second, at, By::Hit, 0x20, 1);
    assert_eq!(rt; second.receipts.as_slice().len(), 1);
    assert_reply(&rt, &third, at, By::Walk, 0x20, 2);
    Ok(())
}

#[test]
fn a_denied_access_fills_nothing(rt: HostRuntime) -> Result<(), Fail> {
    let mut cpu = cpu_with_segment(&rt);
    let mut table = empty_table(rt.alloc())?;
    enter(&mut table, 0x20, 0x1001, 0x3013);
    let test = Test {
        avpn: None,
        andcond: None,
    };
    let between = Op::Protect { test, flags: 0x2 };
    let (first, second, third) = three_accesses(
        &mut cpu,
        &mut table,
        &memory(),
        Want::Store,
        between,
    );
    assert_reply(&rt, &first, Outcome::Denied, By::Walk, 0x20, 1);
    assert_reply(&rt, &second, Outcome::Denied, By::Walk, 0x20, 1);
    let at = Outcome::At(0x20_0000_3000);
    assert_reply(&rt, &third, at, By::Walk, 0x20, 2);
    Ok(())
}

#[test]
fn a_line_whose_c_was_cleared_is_past(rt: HostRuntime) -> Result<(), Fail> {
    let mut cpu = cpu_with_segment(&rt);
    let mut table = empty_table(rt.alloc())?;
    enter(&mut table, 0x20, 0x1001, 0x3012);
    let (first, second, third) = three_accesses(
        &mut cpu,
        &mut table,
        &memory(),
        Want::Store,
        Op::ClearMod,
    );
    let at = Outcome::At(0x20_0000_3000);
    assert_reply(&rt, &first, at, By::Walk, 0x20, 1);
    assert_reply(&rt, &second, at, By::Hit, 0x20, 1);
    assert_reply(&rt, &third, at, By::Walk, 0x20, 2);
    Ok(())
}

#[test]
fn an_entry_in_the_secondary_group(rt: HostRuntime) -> Result<(), Fail> {
    let mut cpu = cpu_with_segment(&rt);
    let mut table = empty_table(rt.alloc())?;
    enter(&mut table, 0x3FD8, 0x1003, 0x3012);
    let (first, second, third) = three_accesses(
        &mut cpu,
        &mut table,
        &memory(),
        Want::Load,
        Op::Read,
    );
    let at = Outcome::At(0x20_0000_3000);
    assert_reply(&rt, &first, at, By::Walk, 0x3FD8, 1);
    assert_eq!(rt; first.receipts.as_slice().len(), 9);
    assert_reply(&rt, &second, at, By::Hit, 0x3FD8, 1);
    assert_reply(&rt, &third, at, By::Hit, 0x3FD8, 1);
    Ok(())
}

#[test]
fn no_entry_and_no_grant(rt: HostRuntime) -> Result<(), Fail> {
    let mut cpu = cpu_with_segment(&rt);
    let mut table = empty_table(rt.alloc())?;
    let (first, _, _) = three_accesses(&mut cpu, &mut table, &memory(), Want::Load, Op::Read);
    assert_reply(&rt, &first, Outcome::NoPage, By::Walk, 0x3FDF, 0);
    assert_eq!(rt; first.receipts.as_slice().len(), 16);
    // The memory ends at 0x40000000.
    let mut table = empty_table(rt.alloc())?;
    enter(&mut table, 0x20, 0x1001, 0x4000_3012);
    let mut cpu = cpu_with_segment(&rt);
    let (_, second, _) = three_accesses(&mut cpu, &mut table, &memory(), Want::Load, Op::Read);
    let ungranted = Outcome::Ungranted(0x4000_3000);
    assert_reply(&rt, &second, ungranted, By::Walk, 0x20, 1);
    Ok(())
}

#[test]
fn no_segment(rt: HostRuntime) -> Result<(), Fail> {
    let mut cpu = cpu_with_segment(&rt);
    let refused = cpu.mte(0x800_0020, 0x1000);
    assert_eq!(rt; refused, Err(BadSlb::Slot));
    cpu.clear_cache();
    cpu.clear_slb();
    let mut table = empty_table(rt.alloc())?;
    enter(&mut table, 0x20, 0x1001, 0x3012);
    let (first, _, _) = three_accesses(&mut cpu, &mut table, &memory(), Want::Load, Op::Read);
    assert_eq!(rt; (first.outcome, first.by), (Outcome::NoSegment, None));
    assert_eq!(rt; first.receipts.as_slice().len(), 0);
    Ok(())
}

/// Loads of five pages of one set of the cache in order, then of the first and of the last again.
fn seven_loads<T: EntryStore>(
    cpu: &mut Cpu,
    store: &mut T,
    grants: &Grants,
) -> (AccessReply, AccessReply)
    requires { cpu.old.cache ≡ empty_cache }
{
    cpu.access(store, grants, 0x5000, Want::Load, false);
    cpu.access(store, grants, 0x2_5000, Want::Load, false);
    cpu.access(store, grants, 0x4_5000, Want::Load, false);
    cpu.access(store, grants, 0x6_5000, Want::Load, false);
    cpu.access(store, grants, 0x8_5000, Want::Load, false);
    let first = cpu.access(store, grants, 0x5000, Want::Load, false);
    let last = cpu.access(store, grants, 0x8_5000, Want::Load, false);
    (first, last)
}

#[test]
fn the_first_of_five_lines_is_pushed_out(rt: HostRuntime) -> Result<(), Fail> {
    let mut cpu = cpu_with_segment(&rt);
    let mut table = empty_table(rt.alloc())?;
    enter(&mut table, 0x20, 0x1001, 0x3012);
    enter(&mut table, 0x120, 0x1001, 0x3012);
    enter(&mut table, 0x220, 0x1001, 0x3012);
    enter(&mut table, 0x320, 0x1001, 0x3012);
    enter(&mut table, 0x420, 0x1001, 0x3012);
    let (first, last) = seven_loads(&mut cpu, &mut table, &memory());
    let at = Outcome::At(0x20_0000_3000);
    assert_reply(&rt, &first, at, By::Walk, 0x20, 1);
    assert_reply(&rt, &last, at, By::Hit, 0x420, 1);
    Ok(())
}

/// A store in privileged state and a load in problem state, both at 0x5000.
fn store_then_user_load<T: EntryStore>(
    cpu: &mut Cpu,
    store: &mut T,
    grants: &Grants,
) -> (AccessReply, AccessReply)
    requires { cpu.old.cache ≡ empty_cache }
{
    let stored = cpu.access(store, grants, 0x5000, Want::Store, false);
    let loaded = cpu.access(store, grants, 0x5000, Want::Load, true);
    (stored, loaded)
}

#[test]
fn a_page_of_the_kernel_is_denied_to_a_user(rt: HostRuntime) -> Result<(), Fail> {
    // The key of the problem state is set, and the entry has R and C from the start, as Linux
    // enters its own pages.
    let mut cpu = cpu_with(&rt, 0x1400);
    let mut table = empty_table(rt.alloc())?;
    enter(&mut table, 0x20, 0x1011, 0x3190);
    let (stored, loaded) = store_then_user_load(&mut cpu, &mut table, &memory());
    let at = Outcome::At(0x20_0000_3000);
    assert_reply(&rt, &stored, at, By::Walk, 0x20, 1);
    assert_reply(&rt, &loaded, Outcome::Denied, By::Hit, 0x20, 1);
    Ok(())
}

/// A load in privileged state.
fn load<T: EntryStore>(cpu: &mut Cpu, store: &mut T, grants: &Grants, address: u64) -> AccessReply
    requires { cpu.old.cache ≡ empty_cache }
{
    cpu.access(store, grants, address, Want::Load, false)
}

#[test]
fn a_page_of_16_mb(rt: HostRuntime) -> Result<(), Fail> {
    let mut cpu = cpu_with(&rt, 0x1100);
    let mut table = empty_table(rt.alloc())?;
    enter(&mut table, 0x20, 0x1505, 0x300_0012);
    let reply = load(&mut cpu, &mut table, &memory(), 0x512_3456);
    let at = Outcome::At(0x20_0312_3456);
    assert_reply(&rt, &reply, at, By::Walk, 0x20, 1);
    Ok(())
}

#[test]
fn a_segment_of_1_tb(rt: HostRuntime) -> Result<(), Fail> {
    let mut cpu = cpu_with(&rt, 0x4000_0000_0100_0000);
    let mut table = empty_table(rt.alloc())?;
    enter(&mut table, 0x20, 0x4000_0000_0100_0001, 0x3012);
    let reply = load(&mut cpu, &mut table, &memory(), 0x5000);
    let at = Outcome::At(0x20_0000_3000);
    assert_reply(&rt, &reply, at, By::Walk, 0x20, 1);
    Ok(())
}
