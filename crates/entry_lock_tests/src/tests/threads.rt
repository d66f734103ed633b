//! Two threads at one entry: what the clauses say of each pass is checked over what both made.

ghost use Rattle.std.specs.Prelude.{◌≡◌, IfOk};
ghost use Rattle.entry_lock.specs.PassOfTable.{IsOf};

use super::{ENTRY, access, enter, open_table, page, remove};
use entry_lock::{Busy, Closed, LockTable, Pass};
use entry_model::{Answer, EntryState, Op, Receipt};
use std::alloc::{AllocError, Global};
use std::test::Fail;
use std::thread;
use std::thread::Threads;
use storage_prot::Want;

/// How many operations each thread tries.
const TRIES: u32 = 10000;

/// What a thread tries, turn by turn.
#[derive(Clone, Copy)]
enum Work {
    /// To enter a page, to remove it, and to clear C.
    Calls,
    Stores,
    Clearings,
}

/// What a thread's tries gave.
#[derive(Drop)]
struct Tried {
    pass: Pass,
    made: Vec<Receipt>,
    busy: u32,
    /// Busy answers of another entry, or without a cause in their two words.
    wrong: u32,
}

fn operation(turn: u32, work: Work) -> Op {
    match work {
        Work::Stores => access(Want::Store),
        Work::Clearings => Op::ClearMod,
        Work::Calls => match turn % 3 {
            0 => enter(),
            1 => remove(),
            _ => Op::ClearMod,
        },
    }
}

/// Whether a busy answer names a cause.
fn has_cause(busy: &Busy, op: &Op) -> bool {
    let lock = 1 << 63;
    let shut = 1 << 62;
    if matches!(*op, Op::Access { .. }) {
        busy.looked & shut == shut || busy.found & shut == shut || busy.looked != busy.found
    } else {
        busy.found & lock == lock && busy.looked == busy.found
    }
}

fn work_on(alloc: Global, table: &LockTable, pass: Pass, work: Work) -> Result<Tried, AllocError>
    requires { IsOf table.now pass × (table.now.order ≡ 18) }
    ensures { IfOk result (λ t. IsOf table.now t.pass × (t.pass.shares ≡ pass.shares)) }
{
    let mut tried = Tried {
        pass,
        made: Vec::new(alloc),
        busy: 0,
        wrong: 0,
    };
    for turn in 0..TRIES {
        let op = operation(turn, work);
        match tried.pass.try_apply(table, ENTRY, op) {
            Ok(receipt) => tried.made.push(receipt)?,
            Err(busy) => {
                tried.busy = tried.busy.saturating_add(1);
                if !has_cause(&busy, &op) || busy.entry != ENTRY {
                    tried.wrong = tried.wrong.saturating_add(1);
                }
            }
        }
    }
    Ok(tried)
}

/// What both threads made, and the closing state of the entry.
#[derive(Drop)]
struct Ended {
    one: Vec<Receipt>,
    two: Vec<Receipt>,
    busy: u32,
    wrong: u32,
    opening: EntryState,
    closing: EntryState,
}

/// Two threads with a pass each, and the table closed.
fn run_two<R: Threads + Sync>(
    rt: &R,
    alloc: Global,
    first: EntryState,
    works: (Work, Work),
) -> Result<Ended, AllocError> {
    let (table, mut pass) = open_table(alloc, first, 2)?;
    let other = pass.split(&table);
    let shared = &table;
    let (one, two) = thread::join(
        rt,
        move || -> Result<Tried, AllocError>
            requires { IsOf shared.now pass × (shared.now.order ≡ 18) }
            ensures { IfOk result
                (λ t. IsOf shared.entry.now t.pass × (t.pass.shares ≡ pass.shares)) }
        { work_on(alloc, shared, pass, works.0) },
        move || -> Result<Tried, AllocError>
            requires { IsOf shared.now other × (shared.now.order ≡ 18) }
            ensures { IfOk result
                (λ t. IsOf shared.entry.now t.pass × (t.pass.shares ≡ other.shares)) }
        { work_on(alloc, shared, other, works.1) },
    );
    let Tried {
        mut pass,
        made: one,
        busy,
        wrong,
    } = one?;
    let Tried {
        pass: other,
        made: two,
        busy: busy_two,
        wrong: wrong_two,
    } = two?;
    pass.join(&table, other);
    let Closed { opening, closing } = table.close(pass);
    Ok(Ended {
        one,
        two,
        busy: busy.saturating_add(busy_two),
        wrong: wrong.saturating_add(wrong_two),
        opening: opening[ENTRY as usize],
        closing: closing[ENTRY as usize],
    })
}

/// Every try gave a receipt or was busy, for a cause.
fn is_told(ended: &Ended) -> bool {
    let made = ended.one.len().saturating_add(ended.two.len());
    ended.wrong == 0 && made.saturating_add(ended.busy as usize) == 2 * TRIES as usize
}

/// The state that changes of a list of receipts leave at each stamp.
fn note_changes(states: &mut Vec<EntryState>, made: &[Receipt]) {
    for receipt in made {
        let after = receipt.after();
        if after.stamp != receipt.before.stamp {
            if let Some(place) = states.get_mut(after.stamp as usize) {
                *place = after;
            }
        }
    }
}

/// How many receipts have another state before than the one of its stamp.
fn out_of_chain(states: &Vec<EntryState>, made: &[Receipt]) -> u32 {
    let mut count = 0u32;
    for receipt in made {
        if states.get(receipt.before.stamp as usize) != Some(&receipt.before) {
            count = count.saturating_add(1);
        }
    }
    count
}

/// Each receipt's state before is the one that the entry had at that stamp, from the opening to the
/// closing state.
#[test]
fn two_threads_of_calls(rt: HostRuntime) -> Result<(), Fail> {
    let ended = run_two(
        &rt,
        rt.alloc(),
        EntryState::empty(0),
        (Work::Calls, Work::Calls),
    )?;
    let mut states = vec![in rt.alloc(); EntryState::empty(0); 20001]?;
    note_changes(&mut states, ended.one.as_slice());
    note_changes(&mut states, ended.two.as_slice());
    assert_eq!(rt; out_of_chain(&states, ended.one.as_slice()), 0);
    assert_eq!(rt; out_of_chain(&states, ended.two.as_slice()), 0);
    assert_eq!(rt; ended.opening, EntryState::empty(0));
    assert_eq!(rt;
        states.get(ended.closing.stamp as usize),
        Some(&ended.closing)
    );
    assert!(rt; is_told(&ended));
    Ok(())
}

/// At which stamps a store was made.
fn note_stores(stored: &mut Vec<bool>, made: &[Receipt]) {
    for receipt in made {
        if receipt.answer == Answer::At {
            if let Some(place) = stored.get_mut(receipt.before.stamp as usize) {
                *place = true;
            }
        }
    }
}

/// How many clearings found C set without a store at their stamp, or clear after one.
fn lost_stores(stored: &Vec<bool>, made: &[Receipt]) -> u32 {
    let mut count = 0u32;
    for receipt in made {
        if stored.get(receipt.before.stamp as usize) != Some(&receipt.before.changed) {
            count = count.saturating_add(1);
        }
    }
    count
}

/// A clearing of C finds it set exactly if a store was made since the clearing before it: a store
/// while a call holds the entry isn't lost, and none counts twice.
#[test]
fn stores_beside_clearings(rt: HostRuntime) -> Result<(), Fail> {
    let ended = run_two(
        &rt,
        rt.alloc(),
        page(false, false, 0),
        (Work::Stores, Work::Clearings),
    )?;
    let mut stored = vec![in rt.alloc(); false; 10001]?;
    note_stores(&mut stored, ended.one.as_slice());
    assert_eq!(rt; lost_stores(&stored, ended.two.as_slice()), 0);
    assert_eq!(rt; ended.closing.stamp as usize, ended.two.len());
    assert_eq!(rt;
        stored.get(ended.closing.stamp as usize),
        Some(&ended.closing.changed)
    );
    assert!(rt; is_told(&ended));
    Ok(())
}
