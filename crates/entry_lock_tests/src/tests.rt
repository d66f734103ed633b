//! Passes over a table of order 18, and what they make on entry 0x20.

ghost use Rattle.std.specs.Prelude.{◌≡◌, ◌<◌, ◌≤◌, IfOk};
ghost use Rattle.entry_lock.specs.PassOfTable.{IsOf};
ghost use Rattle.entry_model.specs.Receipt.{IsNormal};

mod lines;
mod pauses;
mod shares;
mod threads;

use authority_mask::Masks;
use entry_lock::{LockTable, Pass};
use entry_model::{EntryState, Op, Test};
use std::alloc::{AllocError, Global};
use storage_prot::Want;

/// The order of the smallest table, and how many entries it has.
const ORDER: u8 = 18;

const ENTRIES: usize = 16384;

/// The entry that the passes meet at.
const ENTRY: u32 = 0x20;

/// The doublewords of a 4 KB page at 0x3000, with protection bits 2.
const DWORD0: u64 = 0x1001;

const DWORD1: u64 = 0x3012;

/// The entry with its page.
fn page(referenced: bool, changed: bool, stamp: u32) -> EntryState {
    EntryState {
        valid: true,
        dword0: DWORD0,
        dword1: DWORD1,
        referenced,
        changed,
        stamp,
    }
}

/// An access by the entry's page.
fn access(want: Want) -> Op
    ensures { IsNormal result }
{
    Op::Access {
        tag: DWORD0,
        base: 12,
        key: false,
        no_execute: false,
        want,
        masks: Masks::default(),
    }
}

fn enter() -> Op {
    Op::Enter {
        dword0: DWORD0,
        dword1: DWORD1,
    }
}

/// A test that each valid entry passes.
fn no_test() -> Test {
    Test {
        avpn: None,
        andcond: None,
    }
}

fn remove() -> Op {
    Op::Remove { test: no_test() }
}

/// A table of empty entries except for this one, and a pass with all shares.
fn open_table(
    alloc: Global,
    state: EntryState,
    passes: u32,
) -> Result<(LockTable, Pass), AllocError>
    requires some_pass { 0 < passes }
    requires few { passes ≤ 64 }
    ensures table { IfOk result (λ r. IsOf r.0 r.1) }
    ensures order { IfOk result (λ r. r.0.order ≡ 18) }
    ensures passes { IfOk result (λ r. r.0.passes ≡ passes) }
    ensures shares { IfOk result (λ r. r.1.shares ≡ passes) }
{
    let mut states = vec![in alloc; EntryState::empty(0); ENTRIES]?;
    states[ENTRY as usize] = state;
    match LockTable::open(alloc, states, ORDER, passes) {
        Ok(opened) => Ok(opened),
        Err(_) => Err(AllocError),
    }
}
