//! One processor, or two in threads, at a table of order 18.

ghost use Rattle.std.specs.Prelude.{◌≡◌, ◌<◌, ◌≤◌, IfOk};
ghost use Rattle.tlb_model.specs.Cache.{empty_cache};
ghost use Rattle.entry_lock.specs.PassOfTable.{IsOf};
ghost use Rattle.entry_lock.specs.PassInvariants.{most_passes};

mod accesses;
mod calls;
mod threads;
mod worn;

use entry_lock::{LockTable, Pass};
use entry_model::EntryState;
use frame_grants::{Grant, Grants, Kind};
use std::alloc::{AllocError, Global};
use std::process::Abort;
use vcpu::Cpu;

/// The order of the smallest table, and how many entries it has.
const ORDER: u8 = 18;

const ENTRIES: usize = 16384;

/// The group of the page at 0x5000, and the doublewords of its translation to 0x3000.
const GROUP: u64 = 0x20;

const DWORD0: u64 = 0x1001;

const DWORD1: u64 = 0x3012;

/// The machine address of the page.
const LANDS: u64 = 0x20_0000_3000;

/// 1 GB of memory, from the machine address 0x20_0000_0000.
const MEMORY: Grant = Grant {
    logical: 0,
    machine: 0x20_0000_0000,
    length: 0x4000_0000,
    kind: Kind::Ram,
};

fn memory() -> Grants {
    let mut grants = Grants::new(0x10_0000_0000, ORDER);
    let _ = grants.add(MEMORY);
    grants
}

/// A processor with the segment 1 of 256 MB, in pages of 4 KB, at address 0.
fn processor(rt: &impl Abort) -> Cpu
    ensures { result.cache ≡ empty_cache }
{
    let mut cpu = Cpu::new();
    let done = cpu.mte(0x800_0000, 0x1000);
    assert_eq!(rt; done, Ok(()));
    cpu
}

/// A table of empty entries, and a pass with all shares.
fn open_table(alloc: Global, passes: u32) -> Result<(LockTable, Pass), AllocError>
    requires some_pass { 0 < passes }
    requires few { passes ≤ most_passes }
    ensures table { IfOk result (λ r. IsOf r.0 r.1) }
    ensures order { IfOk result (λ r. r.0.order ≡ 18) }
    ensures passes { IfOk result (λ r. r.0.passes ≡ passes) }
    ensures shares { IfOk result (λ r. r.1.shares ≡ passes) }
{
    let states = vec![in alloc; EntryState::empty(0); ENTRIES]?;
    match LockTable::open(alloc, states, ORDER, passes) {
        Ok(opened) => Ok(opened),
        Err(_) => Err(AllocError),
    }
}
