//! A processor that caches a translation, and another pass that changes its entry.

ghost use Rattle.std.specs.Prelude.{◌≡◌};
ghost use Rattle.tlb_model.specs.Cache.{empty_cache};

use super::{DWORD0, DWORD1, GROUP, LANDS, memory, open_table, processor};
use entry_lock::{NoPause, Waiting};
use entry_model::{AccessReply, By, EntryStore, HReply, Outcome};
use frame_grants::Grants;
use h_enter::h_enter;
use h_update::h_protect;
use papr_codes::Rc;
use std::process::Abort;
use std::test::Fail;
use storage_prot::Want;
use vcpu::Cpu;

/// Two loads at 0x5000, a call of the other pass, and two more loads.
fn loads_beside<A: EntryStore, B: EntryStore>(
    cpu: &mut Cpu,
    store: &mut A,
    other: &mut B,
    grants: &Grants,
) -> (AccessReply, AccessReply, HReply, AccessReply, AccessReply)
    requires { cpu.old.cache ≡ empty_cache }
{
    let first = cpu.access(store, grants, 0x5000, Want::Load, false);
    let second = cpu.access(store, grants, 0x5000, Want::Load, false);
    let protected = h_protect(other, 2, GROUP, 0);
    let third = cpu.access(store, grants, 0x5000, Want::Load, false);
    let fourth = cpu.access(store, grants, 0x5000, Want::Load, false);
    (first, second, protected, third, fourth)
}

/// The load is at the page, by this way, and its receipt has this stamp and R before.
fn assert_load(rt: &impl Abort, reply: &AccessReply, by: By, stamp: u32, referenced: bool) {
    assert_eq!(rt; reply.outcome, Outcome::At(LANDS));
    assert_eq!(rt; reply.by, Some(by));
    let last = reply.receipts.as_slice().last();
    let told = last.map(|r| (r.entry as u64, r.before.stamp, r.before.referenced));
    assert_eq!(rt; told, Some((GROUP, stamp, referenced)));
}

/// A cached translation serves until another pass changes its entry: the next access walks, and
/// finds the entry at its new stamp; then the new translation serves.
#[test]
fn a_cached_translation_of_two_passes(rt: HostRuntime) -> Result<(), Fail> {
    let grants = memory();
    let mut cpu = processor(&rt);
    let (table, mut pass) = open_table(rt.alloc(), 2)?;
    let other = pass.split(&table);
    let mut store = Waiting::new(&rt, &table, pass, &NoPause);
    let mut other = Waiting::new(&rt, &table, other, &NoPause);
    let entered = h_enter(&mut other, &grants, 0, GROUP, DWORD0, DWORD1);
    assert_eq!(rt; entered.rc, Rc::Success);
    let (first, second, protected, third, fourth) = loads_beside(
        &mut cpu, &mut store, &mut other, &grants,
    );
    assert_load(&rt, &first, By::Walk, 1, false);
    assert_load(&rt, &second, By::Hit, 1, true);
    assert_eq!(rt; protected.rc, Rc::Success);
    assert_load(&rt, &third, By::Walk, 2, true);
    assert_load(&rt, &fourth, By::Hit, 2, true);
    Ok(())
}
