//! The hypervisor calls and the walk, over a pass and over a plain table.

use super::{DWORD0, DWORD1, ENTRIES, GROUP, ORDER, memory, open_table};
use authority_mask::Masks;
use entry_lock::{NoPause, Waiting};
use entry_model::{EntryState, EntryStore, HReply};
use frame_grants::Grants;
use h_enter::h_enter;
use h_update::{h_bulk_remove, h_clear_mod, h_clear_ref, h_protect, h_read, h_remove};
use hpt_walk::walk;
use papr_codes::Rc;
use papr_table::PlainTable;
use power_addr::Page;
use std::alloc::{AllocError, Global};
use std::test::Fail;
use storage_prot::Want;

/// What a call answered: the code, its words, and the stamp before each receipt.
type Told = (Rc, Vec<u64>, Vec<u32>);

fn note(alloc: Global, replies: &mut Vec<Told>, reply: HReply) -> Result<(), AllocError> {
    let words = reply.words.as_slice().to_vec(alloc)?;
    let mut stamps = Vec::new(alloc);
    for receipt in reply.receipts.as_slice() {
        stamps.push(receipt.before.stamp)?;
    }
    replies.push((reply.rc, words, stamps))?;
    Ok(())
}

/// Each call in turn on one group of any store, with a store's walk between.
fn all_calls<T: EntryStore>(
    alloc: Global,
    store: &mut T,
    grants: &Grants,
) -> Result<Vec<Told>, AllocError> {
    let mut replies = Vec::new(alloc);
    for _ in 0..9 {
        let entered = h_enter(store, grants, 0, GROUP, DWORD0, DWORD1);
        note(alloc, &mut replies, entered)?;
    }
    if let Some(page) = Page::of_address(false, 1, 12, 0x5000) {
        let answer = walk(store, &page, Want::Store, false, false, Masks::default());
        let reply = HReply {
            receipts: answer.receipts,
            ..HReply::without_receipts(Rc::Success)
        };
        note(alloc, &mut replies, reply)?;
    }
    note(alloc, &mut replies, h_read(store, 2, GROUP))?;
    note(alloc, &mut replies, h_protect(store, 3, GROUP, 0))?;
    note(alloc, &mut replies, h_clear_ref(store, 0, GROUP))?;
    note(alloc, &mut replies, h_clear_mod(store, 0, GROUP))?;
    note(alloc, &mut replies, h_remove(store, 0, GROUP, 0))?;
    note(alloc, &mut replies, h_remove(store, 0, GROUP, 0))?;
    let pairs = [
        0x4000_0000_0000_0021,
        0,
        0x4000_0000_0000_0020,
        0,
        0x8000_0000_0000_0000,
        0,
        0,
        0,
    ];
    note(alloc, &mut replies, h_bulk_remove(store, &pairs))?;
    Ok(replies)
}

/// A pass that nobody disturbs answers as a plain table does.
#[test]
fn calls_over_a_pass_answer_as_over_a_plain_table(rt: HostRuntime) -> Result<(), Fail> {
    let grants = memory();
    let states = vec![in rt.alloc(); EntryState::empty(0); ENTRIES]?;
    let mut plain = PlainTable::open(states, ORDER);
    let wanted = all_calls(rt.alloc(), &mut plain, &grants)?;
    let (table, pass) = open_table(rt.alloc(), 1)?;
    let mut store = Waiting::new(&rt, &table, pass, &NoPause);
    let replies = all_calls(rt.alloc(), &mut store, &grants)?;
    assert_eq!(rt; replies.len(), 17);
    assert_eq!(rt; replies, wanted);
    assert_eq!(rt; replies.get(8).map(|told| told.0), Some(Rc::PtegFull));
    Ok(())
}
