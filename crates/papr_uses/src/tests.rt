//! What the tests of this crate share: smallest tables, entries, and replies as rows.

mod enter;
mod resize;
mod update;
mod uses;
mod walk;

ghost use Rattle.std.specs.Prelude.{◌≡◌, bit_and, IfOk};

use entry_model::{Answer, EntryState, HReply};
use frame_grants::{Grant, Kind};
use papr_codes::Rc;
use papr_table::PlainTable;
use std::alloc::{AllocError, Global};
use std::process::Abort;

/// The order of the smallest table, and how many entries it has.
const ORDER: u8 = 18;

const ENTRIES: usize = 16384;

/// 1 GB of main storage, at logical address 0.
const STORAGE: Grant = Grant {
    logical: 0,
    machine: 0x20_0000_0000,
    length: 0x4000_0000,
    kind: Kind::Ram,
};

/// A receipt's entry, its stamp before, and its answer.
type Made = (u32, u32, Answer);

/// A reply: its code, its words, and its receipts.
struct Wanted {
    rc: Rc,
    words: &'static [u64],
    receipts: &'static [Made],
}

/// A smallest table whose entries are all empty.
fn empty_table(alloc: Global) -> Result<PlainTable, AllocError>
    ensures { IfOk result (λ table. table.order ≡ 18) }
{
    let states = vec![in alloc; EntryState::empty(0); ENTRIES]?;
    Ok(PlainTable::open(states, ORDER))
}

/// A smallest table whose entries are empty except for entry 0x20.
fn table_with(alloc: Global, state: EntryState) -> Result<PlainTable, AllocError> {
    let mut states = vec![in alloc; EntryState::empty(0); ENTRIES]?;
    states[0x20] = state;
    Ok(PlainTable::open(states, ORDER))
}

/// A valid entry, with these R and C.
fn entry(dword0: u64, dword1: u64, bits: (bool, bool), stamp: u32) -> EntryState
    requires { bit_and dword1 0x180 ≡ 0 }
{
    EntryState {
        valid: true,
        dword0,
        dword1,
        referenced: bits.0,
        changed: bits.1,
        stamp,
    }
}

/// The reply is the wanted one.
fn expect(rt: &impl Abort, name: &str, reply: &HReply, wanted: &Wanted) {
    let made = reply.receipts.as_slice();
    assert_eq!(rt;
        (reply.rc, reply.words.as_slice(), made.len()),
        (wanted.rc, wanted.words, wanted.receipts.len()),
        "at {name}"
    );
    for (receipt, told) in made.iter().zip(wanted.receipts) {
        let is = (receipt.entry, receipt.before.stamp, receipt.answer);
        assert_eq!(rt; is, *told, "at {name}");
    }
}
