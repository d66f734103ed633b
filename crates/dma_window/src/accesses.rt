//! A device's access to memory: one read of its page's entry gives the TCE, and the TCE and the
//! grants decide where the access ends.
ghost use Rattle.std.specs.Prelude.{◌≡◌, ◌%◌, ◌<◌};
ghost use Rattle.entry_model.specs.Replies.{device_reply_with};
ghost use Rattle.dma_window.specs.Devices as devices;

use crate::making::make;
use crate::tce::{address, is_ram, permits, tce_of};
use bus_window::Window;
use entry_model::{DeviceOutcome, DeviceReply, EntryStore, Op, Receipts};
use frame_grants::Grants;
use page_grants::GrantedMemory;
use pool_range::PAGE_BYTES;

/// Where a device's access ends by the page's TCE.
pub fn outcome_by<G: GrantedMemory>(grants: &G, tce: u64, ioba: u64, write: bool) -> DeviceOutcome
    ensures { result ≡ devices.outcome_by (G.grants grants.now) ioba write tce }
{
    if !permits(tce, write) {
        return DeviceOutcome::Denied;
    }
    let page = address(tce);
    let logical = page + ioba % PAGE_BYTES;
    if !is_ram(grants, page) {
        return DeviceOutcome::Ungranted(logical);
    }
    match grants.machine_of(logical, 1) {
        None => DeviceOutcome::Ungranted(logical),
        Some((machine, _)) => DeviceOutcome::At(machine),
    }
}

/// [`device`] with its receipt put into `receipts`, which are cleared first.
// Out of line: docs/PERFORMANCE.md says why.
#[inline(never)]
pub fn device_into<T: EntryStore>(
    store: &mut T,
    grants: &Grants,
    window: &Window,
    ioba: u64,
    write: bool,
    receipts: &mut Receipts,
) -> DeviceOutcome
    ensures made { T.made store.old store.new receipts.new }
    ensures reply { devices.IsDeviceReply
        grants.now.grants
        window.now
        ioba
        write
        (device_reply_with result receipts.new) }
{
    receipts.clear();
    let Some(entry) = window.entry_at(ioba) else {
        return DeviceOutcome::NoWindow;
    };
    let read = make(store, entry, Op::Read, receipts);
    outcome_by(grants, tce_of(&read.before), ioba, write)
}

/// An access of a device at a bus address, a read or a write, by the TCE of the page there. It
/// leaves the window as it is.
pub fn device<T: EntryStore>(
    store: &mut T,
    grants: &Grants,
    window: &Window,
    ioba: u64,
    write: bool,
) -> DeviceReply
    ensures made { T.made store.old store.new result.receipts }
    ensures reply { devices.IsDeviceReply grants.now.grants window.now ioba write result }
{
    let mut receipts = Receipts::new();
    let outcome = device_into(store, grants, window, ioba, write, &mut receipts);
    outcome.into_reply(receipts)
}
