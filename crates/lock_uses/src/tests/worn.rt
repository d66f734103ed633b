//! An entry at its last stamp, over a plain table and over a pass: no call changes it, and an
//! access still uses it.

ghost use Rattle.std.specs.Prelude.{◌≡◌, IfOk, vec_len};
ghost use Rattle.hpte_fields.specs.TableSize.{entry_count};
ghost use Rattle.tlb_model.specs.Cache.{empty_cache};

use super::{DWORD0, DWORD1, ENTRIES, GROUP, LANDS, ORDER, memory, processor};
use entry_lock::{LockTable, NoPause, Waiting};
use entry_model::{AccessReply, Answer, By, EntryState, EntryStore, HReply, Outcome, Receipts};
use frame_grants::Grants;
use h_enter::h_enter;
use h_update::{h_bulk_remove, h_clear_mod, h_clear_ref, h_protect, h_read, h_remove};
use papr_codes::Rc;
use papr_table::PlainTable;
use std::alloc::{AllocError, Global};
use std::process::Abort;
use std::test::Fail;
use storage_prot::Want;
use vcpu::Cpu;

/// A hypervisor call on the entry.
#[derive(Clone, Copy, Debug)]
enum Call {
    Enter,
    Remove,
    Protect,
    Read,
    ClearRef,
    ClearMod,
    BulkRemove,
}

/// A call, its code and words, and the answer of its one receipt.
struct Row {
    call: Call,
    rc: Rc,
    words: &'static [u64],
    answer: Answer,
}

/// H_EXACT.
const EXACT: u64 = 0x80_0000_0000;

/// Requests to remove the entry and the next one.
const REMOVE: u64 = 0x4000_0000_0000_0020;

const NEXT: u64 = 0x4000_0000_0000_0021;

const ROWS: &[Row] = &[
    Row {
        call: Call::Enter,
        rc: Rc::PtegFull,
        words: &[],
        answer: Answer::Taken,
    },
    Row {
        call: Call::Remove,
        rc: Rc::Hardware,
        words: &[],
        answer: Answer::Worn,
    },
    Row {
        call: Call::Protect,
        rc: Rc::Hardware,
        words: &[],
        answer: Answer::Worn,
    },
    Row {
        call: Call::ClearRef,
        rc: Rc::Hardware,
        words: &[],
        answer: Answer::Worn,
    },
    Row {
        call: Call::ClearMod,
        rc: Rc::Hardware,
        words: &[],
        answer: Answer::Worn,
    },
    Row {
        call: Call::BulkRemove,
        rc: Rc::Hardware,
        words: &[0xB000_0000_0000_0020, 5, NEXT, 6, NEXT, 7, NEXT, 8],
        answer: Answer::Worn,
    },
    Row {
        call: Call::Read,
        rc: Rc::Success,
        words: &[DWORD0, DWORD1],
        answer: Answer::Words,
    },
];

/// The entry's state.
fn worn(referenced: bool) -> EntryState {
    EntryState {
        dword0: DWORD0,
        dword1: DWORD1,
        stamp: u32::MAX,
        valid: true,
        referenced,
        changed: false,
    }
}

/// The states of a table of empty entries except for that one.
fn states(alloc: Global) -> Result<Vec<EntryState>, AllocError>
    ensures { IfOk result (λ states. vec_len states ≡ entry_count 18) }
{
    let mut states = vec![in alloc; EntryState::empty(0); ENTRIES]?;
    states[GROUP as usize] = worn(false);
    Ok(states)
}

/// The reply of a call.
fn replied<T: EntryStore>(store: &mut T, grants: &Grants, call: Call) -> HReply {
    match call {
        Call::Enter => h_enter(store, grants, EXACT, GROUP, DWORD0, DWORD1),
        Call::Remove => h_remove(store, 0, GROUP, 0),
        Call::Protect => h_protect(store, 2, GROUP, 0),
        Call::Read => h_read(store, 0, GROUP),
        Call::ClearRef => h_clear_ref(store, 0, GROUP),
        Call::ClearMod => h_clear_mod(store, 0, GROUP),
        Call::BulkRemove => h_bulk_remove(store, &[REMOVE, 5, NEXT, 6, NEXT, 7, NEXT, 8]),
    }
}

/// A load from the page, by a processor that has cached nothing.
fn load<T: EntryStore>(cpu: &mut Cpu, store: &mut T, grants: &Grants) -> AccessReply
    requires { cpu.old.cache ≡ empty_cache }
{
    cpu.access(store, grants, 0x5000, Want::Load, false)
}

/// There is one receipt, of the entry in this state.
fn assert_receipt(rt: &impl Abort, made: &Receipts, before: EntryState, answer: Answer) {
    let made = made.as_slice();
    assert_eq!(rt; made.len(), 1);
    for receipt in made {
        let told = (u64::from(receipt.entry), receipt.before, receipt.answer);
        assert_eq!(rt; told, (GROUP, before, answer));
    }
}

/// Each call, and then a load, which sets R and no more.
fn assert_unchanged<T: EntryStore>(rt: &impl Abort, store: &mut T) {
    let grants = memory();
    for row in ROWS {
        let reply = replied(store, &grants, row.call);
        assert_eq!(rt; reply.rc, row.rc, "at {:?}", row.call);
        assert_eq!(rt; reply.words.as_slice(), row.words, "at {:?}", row.call);
        assert_receipt(rt, &reply.receipts, worn(false), row.answer);
    }
    let mut cpu = processor(rt);
    let loaded = load(&mut cpu, store, &grants);
    assert_eq!(rt;
        (loaded.outcome, loaded.by),
        (Outcome::At(LANDS), Some(By::Walk))
    );
    assert_receipt(rt, &loaded.receipts, worn(false), Answer::At);
    let read = h_read(store, 0, GROUP);
    assert_receipt(rt, &read.receipts, worn(true), Answer::Words);
}

#[test]
fn no_call_changes_an_entry_at_its_last_stamp(rt: HostRuntime) -> Result<(), Fail> {
    let mut plain = PlainTable::open(states(rt.alloc())?, ORDER);
    assert_unchanged(&rt, &mut plain);
    let opened = LockTable::open(rt.alloc(), states(rt.alloc())?, ORDER, 1);
    let (table, pass) = opened.ok().ok_or("no memory")?;
    let mut store = Waiting::new(&rt, &table, pass, &NoPause);
    assert_unchanged(&rt, &mut store);
    Ok(())
}
