//! A guest that enters and removes a page in one thread, and a processor that stores to it in
//! another.

ghost use Rattle.std.specs.Prelude.{◌≡◌};
ghost use Rattle.tlb_model.specs.Cache.{empty_cache};
ghost use Rattle.entry_lock.specs.PassOfTable.{IsOf};

use super::{DWORD0, DWORD1, GROUP, LANDS, memory, open_table, processor};
use entry_lock::{NoPause, Waiting};
use entry_model::{AccessReply, EntryState, EntryStore, Op, Outcome};
use frame_grants::Grants;
use h_enter::h_enter;
use h_update::h_remove;
use papr_codes::Rc;
use std::alloc::{AllocError, Global};
use std::sync::Wait;
use std::test::Fail;
use std::thread;
use std::thread::Threads;
use storage_prot::Want;
use vcpu::Cpu;

/// How often the page is entered and removed, and how many stores are made.
const TURNS: u32 = 2000;

/// Enters the page and removes it. Nobody else changes the table, so each call succeeds. How many
/// didn't.
fn enter_and_remove<T: EntryStore>(store: &mut T, grants: &Grants) -> u32 {
    let mut wrong = 0u32;
    for _ in 0..TURNS {
        let entered = h_enter(store, grants, 0, GROUP, DWORD0, DWORD1);
        let removed = h_remove(store, 0, GROUP, 0);
        if entered.rc != Rc::Success || removed.rc != Rc::Success {
            wrong = wrong.saturating_add(1);
        }
    }
    wrong
}

/// A store is at the page, at a stamp at which the entry has it, or it finds none of sixteen
/// entries.
fn is_possible(reply: &AccessReply) -> bool {
    match reply.outcome {
        Outcome::At(address) => {
            let last = reply.receipts.as_slice().last();
            address == LANDS && last.map(|r| r.before.stamp % 2) == Some(1)
        }
        Outcome::NoPage => reply.receipts.as_slice().len() == 16,
        _ => false,
    }
}

/// Stores to the page. How many replies weren't possible.
fn store_often<T: EntryStore>(cpu: &mut Cpu, store: &mut T, grants: &Grants) -> u32
    requires { cpu.old.cache ≡ empty_cache }
{
    let mut wrong = 0u32;
    for _ in 0..TURNS {
        let reply = cpu.access(store, grants, 0x5000, Want::Store, false);
        if !is_possible(&reply) {
            wrong = wrong.saturating_add(1);
        }
    }
    wrong
}

/// What both threads found wrong, and the state of the page's entry afterwards.
fn run_both<R: Threads + Wait + Sync>(
    rt: &R,
    alloc: Global,
    cpu: Cpu,
) -> Result<(u32, Option<EntryState>), AllocError>
    requires { cpu.cache ≡ empty_cache }
{
    let grants = memory();
    let (table, mut reader) = open_table(alloc, 3)?;
    let one = reader.split(&table);
    let two = reader.split(&table);
    let shared = &table;
    let memory = &grants;
    let mut cpu = cpu;
    let (calls, stores) = thread::join(
        rt,
        move || -> u32
            requires { IsOf shared.now one }
        {
            let mut store = Waiting::new(rt, shared, one, &NoPause);
            enter_and_remove(&mut store, memory)
        },
        move || -> u32
            requires { IsOf shared.now two × (cpu.cache ≡ empty_cache) }
        {
            let mut store = Waiting::new(rt, shared, two, &NoPause);
            store_often(&mut cpu, &mut store, memory)
        },
    );
    let read = reader.try_apply(&table, GROUP as u32, Op::Read);
    Ok((calls.saturating_add(stores), read.ok().map(|r| r.before)))
}

/// Whatever the schedule, no call fails, and each store lands on the page or finds none.
#[test]
fn a_page_comes_and_goes_beside_stores(rt: HostRuntime) -> Result<(), Fail> {
    let cpu = processor(&rt);
    let (wrong, state) = run_both(&rt, rt.alloc(), cpu)?;
    assert_eq!(rt; wrong, 0);
    assert_eq!(rt; state, Some(EntryState::empty(2 * TURNS)));
    Ok(())
}
