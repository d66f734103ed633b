//! H_PUT_TCE, H_GET_TCE and a device's accesses on a window of two pages, over a plain table and
//! beside a grant of ram and one of io.
use bus_window::Window;
use dma_window::*;
use entry_model::{Answer, DeviceOutcome, DeviceReply, EntryState, EntryStore, HReply};
use frame_grants::{Grant, Grants, Kind};
use papr_codes::Rc;
use papr_table::PlainTable;
use std::alloc::{AllocError, Global};
use std::process::Abort;
use std::test::Fail;

/// The order of a window's entries, and how many there are.
const ORDER: u8 = 18;

const ENTRIES: usize = 16384;

/// Two pages of a bus.
fn window() -> Window {
    Window::new(0x8000_0001, 0x1_0000, 2).unwrap_or_default()
}

fn empty_entries(alloc: Global) -> Result<PlainTable, AllocError> {
    let states = vec![in alloc; EntryState::empty(0); ENTRIES]?;
    Ok(PlainTable::open(states, ORDER))
}

/// 64 KB of ram, and a page of io after them.
fn granted() -> Grants {
    let mut grants = Grants::new(0x10_0000_0000, 24);
    let _ram = grants.add(Grant {
        kind: Kind::Ram,
        logical: 0,
        machine: 0x20_0000_0000,
        length: 0x1_0000,
    });
    let _io = grants.add(Grant {
        kind: Kind::Io,
        logical: 0x1_0000,
        machine: 0x30_0000_0000,
        length: 0x1000,
    });
    grants
}

fn put<T: EntryStore>(store: &mut T, grants: &Grants, ioba: u64, tce: u64) -> HReply {
    put_tce(store, grants, &window(), ioba, tce)
}

fn get<T: EntryStore>(store: &mut T, ioba: u64) -> HReply {
    get_tce(store, &window(), ioba)
}

fn reach<T: EntryStore>(store: &mut T, grants: &Grants, ioba: u64, write: bool) -> DeviceReply {
    device(store, grants, &window(), ioba, write)
}

#[test]
fn a_device_reaches_what_the_guest_put(rt: HostRuntime) -> Result<(), Fail> {
    let mut entries = empty_entries(rt.alloc())?;
    let grants = granted();
    assert_eq!(rt;
        put(&mut entries, &grants, 0x1_1000, 0x3003).rc,
        Rc::Success
    );
    let read = get(&mut entries, 0x1_1FFF);
    assert_eq!(rt;
        (read.rc, read.words.as_slice()),
        (Rc::Success, &[0x3003u64][..])
    );
    let written = reach(&mut entries, &grants, 0x1_1ABC, true);
    assert_eq!(rt; written.outcome, DeviceOutcome::At(0x20_0000_3ABC));
    // What a put replaces goes before it comes.
    let replaced = put(&mut entries, &grants, 0x1_1000, 0x4001);
    let receipts = replaced.receipts.as_slice();
    assert_eq!(rt; receipts.len(), 2);
    assert_eq!(rt;
        (receipts[0].entry, receipts[0].answer),
        (1, Answer::Removed)
    );
    assert_eq!(rt;
        (receipts[1].entry, receipts[1].answer),
        (1, Answer::Entered)
    );
    let outcome = reach(&mut entries, &grants, 0x1_1ABC, false).outcome;
    assert_eq!(rt; outcome, DeviceOutcome::At(0x20_0000_4ABC));
    let outcome = reach(&mut entries, &grants, 0x1_1ABC, true).outcome;
    assert_eq!(rt; outcome, DeviceOutcome::Denied);
    Ok(())
}

#[test]
fn a_word_without_a_permission_empties(rt: HostRuntime) -> Result<(), Fail> {
    let mut entries = empty_entries(rt.alloc())?;
    let grants = granted();
    assert_eq!(rt;
        put(&mut entries, &grants, 0x1_0000, 0x3002).rc,
        Rc::Success
    );
    assert_eq!(rt;
        put(&mut entries, &grants, 0x1_0000, 0xFFFF_F000).rc,
        Rc::Success
    );
    assert_eq!(rt; get(&mut entries, 0x1_0000).words.as_slice(), &[0u64][..]);
    let outcome = reach(&mut entries, &grants, 0x1_0000, true).outcome;
    assert_eq!(rt; outcome, DeviceOutcome::Denied);
    Ok(())
}

/// H_PUT_TCE refuses these, and makes nothing.
fn assert_refused<T: EntryStore>(
    rt: &impl Abort,
    store: &mut T,
    grants: &Grants,
    ioba: u64,
    tce: u64,
) {
    let refused = put(store, grants, ioba, tce);
    assert_eq!(rt; refused.rc, Rc::Parameter, "{ioba:#x} {tce:#x}");
    assert_eq!(rt; refused.receipts.as_slice().len(), 0);
}

#[test]
fn what_is_out_of_range_is_refused(rt: HostRuntime) -> Result<(), Fail> {
    let mut entries = empty_entries(rt.alloc())?;
    let grants = granted();
    assert_refused(&rt, &mut entries, &grants, 0xFFFF, 0x3003);
    assert_refused(&rt, &mut entries, &grants, 0x1_2000, 0x3003);
    assert_refused(&rt, &mut entries, &grants, 0x1_0000, 0x1_0003);
    assert_refused(&rt, &mut entries, &grants, 0x1_0000, 0x1_1001);
    assert_eq!(rt; get(&mut entries, 0x1_2000).rc, Rc::Parameter);
    let outcome = reach(&mut entries, &grants, 0xFFFF, false).outcome;
    assert_eq!(rt; outcome, DeviceOutcome::NoWindow);
    Ok(())
}
