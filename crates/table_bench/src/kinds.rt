//! The runs that are measured: on a plain table, on one behind a lock, and on the running table.
ghost use Rattle.std.specs.Prelude.{◌≡◌, ◌<◌, ◌≤◌, ◌-◌, ◌^◌, IfSome, vec_len};
ghost use Rattle.hpte_fields.specs.TableSize.{entry_count, IsTableOrder};
ghost use Rattle.entry_model.specs.Receipt.{IsNormal};
ghost use Rattle.entry_lock.specs.PassOfTable.{IsOf};
ghost use Rattle.entry_lock.specs.PassInvariants.{most_passes};

use crate::mix::{Draw, Part};
use crate::words::{Kind, Run};
use entry_lock::{LockTable, NoPause, Pass, Waiting};
use entry_model::{EntryState, EntryStore, Op};
use hpte_fields::is_table_order;
use papr_table::PlainTable;
use std::alloc::Global;
use std::sync::{Mutex, Wait};
use std::thread;
use std::thread::Threads;

/// An operation, if its entry is in the table. The number of its receipts.
fn apply<T: EntryStore>(store: &mut T, entry: u32, op: Op) -> u64
    requires { IsNormal op }
{
    if entry as u64 >= 1 << (store.order() - 4) {
        return 0;
    }
    store.apply(entry, op);
    1
}

/// A thread with its store, and what it made.
#[derive(Drop)]
struct Worker<T> {
    store: T,
    part: Part,
    draw: Draw,
    tries: u32,
    made: u64,
}

impl<T: EntryStore> Worker<T> {
    fn work(&mut self) {
        for _ in 0..self.tries {
            let (entry, op) = self.draw.operation(&self.part);
            let made = apply(&mut self.store, entry, op);
            self.made = self.made.wrapping_add(made);
        }
    }
}

/// The part of a thread.
fn part_of(run: &Run, thread: u32) -> Part {
    let each = match run.order {
        22 => 0x1_0000,
        _ => 0x1000,
    };
    if run.apart {
        Part {
            first: thread.wrapping_mul(each),
            mask: each - 1,
        }
    } else {
        Part { first: 0, mask: 7 }
    }
}

/// The states of an empty table.
fn states_of(alloc: Global, order: u8) -> Option<Vec<EntryState>>
    requires { IsTableOrder order }
    ensures { IfSome result (λ v. vec_len v ≡ entry_count order) }
{
    Vec::from_elem(alloc, EntryState::empty(0), 1 << (order - 4)).ok()
}

/// A plain table, which one thread has to itself.
fn run_plain(alloc: Global, run: &Run) -> Option<u64>
    requires { IsTableOrder run.now.order }
{
    let states = states_of(alloc, run.order)?;
    let mut worker = Worker {
        store: PlainTable::open(states, run.order),
        part: part_of(run, 0),
        draw: Draw::new(1),
        tries: run.tries,
        made: 0,
    };
    worker.work();
    Some(worker.made)
}

/// Operations on a plain table behind a lock.
fn work_locked<R: Wait>(rt: &R, table: &Mutex<PlainTable>, run: &Run, thread: u32) -> u64 {
    let part = part_of(run, thread);
    let mut draw = Draw::new(thread as u64 + 1);
    let mut made = 0u64;
    for _ in 0..run.tries {
        let (entry, op) = draw.operation(&part);
        let mut guard = table.lock(rt);
        made = made.wrapping_add(apply(&mut *guard, entry, op));
    }
    made
}

/// A plain table behind a lock, in threads.
fn run_mutex<R: Threads + Wait + Sync>(rt: &R, alloc: Global, run: &Run) -> Option<u64>
    requires { IsTableOrder run.now.order }
{
    let states = states_of(alloc, run.order)?;
    let table = Mutex::new(PlainTable::open(states, run.order));
    let made = thread::map_indices(
        rt,
        alloc,
        run.threads as usize,
        &|i: usize| -> u64 { work_locked(rt, &table, run, i as u32 & 63) },
    )
    .ok()?;
    Some(sum_of(made.as_slice()))
}

fn sum_of(made: &[u64]) -> u64 {
    let mut sum = 0u64;
    for count in made {
        sum = sum.wrapping_add(*count);
    }
    sum
}

/// A worker for each share of a pass.
fn workers_of<'a, R: Wait>(
    rt: &'a R,
    alloc: Global,
    table: &'a LockTable,
    pass: Pass,
    run: &Run,
) -> Option<Vec<Worker<Waiting<'a, R, NoPause>>>>
    requires { IsOf table.now pass }
{
    let mut rest = pass;
    let mut workers = Vec::new(alloc);
    let mut thread = 0u32;
    while rest.shares() > 1 {
        let pass = rest.split(table);
        workers.push(worker_of(rt, table, pass, run, thread)).ok()?;
        thread = thread.wrapping_add(1);
    }
    workers.push(worker_of(rt, table, rest, run, thread)).ok()?;
    Some(workers)
}

/// The running table, with a pass for each thread.
fn run_lock<R: Threads + Wait + Sync>(rt: &R, alloc: Global, run: &Run) -> Option<u64>
    requires order { IsTableOrder run.now.order }
    requires threads { 0 < run.now.threads × (run.now.threads ≤ most_passes) }
{
    let states = states_of(alloc, run.order)?;
    let Ok((table, pass)) = LockTable::open(alloc, states, run.order, run.threads) else {
        return None;
    };
    let mut workers = workers_of(rt, alloc, &table, pass, run)?;
    thread::for_each_mut(
        rt,
        workers.as_mut_slice(),
        64,
        &|_: usize, worker: &mut Worker<Waiting<R, NoPause>>| worker.work(),
    );
    let mut sum = 0u64;
    for worker in &workers {
        sum = sum.wrapping_add(worker.made);
    }
    Some(sum)
}

fn worker_of<'a, R: Wait>(
    rt: &'a R,
    table: &'a LockTable,
    pass: Pass,
    run: &Run,
    thread: u32,
) -> Worker<Waiting<'a, R, NoPause>>
    requires { IsOf table.now pass }
{
    Worker {
        store: Waiting::new(rt, table, pass, &NoPause),
        part: part_of(run, thread),
        draw: Draw::new(thread as u64 + 1),
        tries: run.tries,
        made: 0,
    }
}

/// The run that the words ask for: how many receipts it made.
pub fn run_one<R: Threads + Wait + Sync>(rt: &R, alloc: Global, run: &Run) -> Option<u64> {
    if !is_table_order(run.order) || run.threads == 0 || run.threads > 64 {
        return None;
    }
    match run.kind {
        Kind::Plain => run_plain(alloc, run),
        Kind::Mutex => run_mutex(rt, alloc, run),
        Kind::Lock => run_lock(rt, alloc, run),
    }
}
