//! H_PUT_TCE, H_GET_TCE and a device's access over lent entries that make up a DMA window.
ghost use Rattle.std.specs.Prelude.{◌≡◌, ◌<◌, ◌||◌, [], length, true, false, IfSome};
ghost use Rattle.bus_window.specs.Windows as bus;
ghost use Rattle.dma_window.specs.Calls.{put_tce_plan, put_plan_at, get_tce_plan, clear_plan, replace_plan};
ghost use Rattle.dma_window.specs.Entries as words;
ghost use Rattle.entry_model.specs.Receipt;
ghost use Rattle.papr_c.specs.Calls.{memory, outcome_where};
ghost use Rattle.c_layout.specs.Grants.{listed};
ghost use Rattle.papr_c.specs.Windows.{window_of, page_entry, outcome_of_tce, device_told, refused_device, outcome_of_device};
ghost use Rattle.c_layout.specs.Entries.{states_of, AreMarked};

use crate::trying::make;
use bus_window::Window;
use c_layout::{
    PaprEntry, PaprGrants, PaprReceipt, PaprReply, either_stale, filled_count, is_stale, put_word,
};
use dma_window::{address, code_of, entering, is_ram, outcome_by, permits, tce_of};
use entry_model::{Answer, DeviceOutcome, NO_TEST, Op};
use papr_codes::Rc;

/// What empties an entry: any valid one passes its test.
const REMOVAL: Op = Op::Remove { test: NO_TEST };

/// What became of a device's access.
#[repr(C)]
#[derive(Clone, Copy)]
pub struct PaprDevice {
    /// The machine address, or where the page isn't granted the logical one, else 0.
    pub address: u64,
    /// 0 where the access is allowed, 1 where its TCE doesn't permit it, 2 where the address lies
    /// outside the window, 3 where no single grant of ram holds the page, 4 where there can be no
    /// such window.
    pub outcome: u32,
    /// How many of the caller's slots for receipts were filled.
    pub receipts: u32,
}

impl PaprDevice {
    fn of(outcome: DeviceOutcome, receipts: u32) -> PaprDevice
        ensures { result ≡ device_told outcome receipts }
    {
        let (address, outcome) = match outcome {
            DeviceOutcome::At(machine) => (machine, 0),
            DeviceOutcome::Denied => (0, 1),
            DeviceOutcome::NoWindow => (0, 2),
            DeviceOutcome::Ungranted(logical) => (logical, 3),
        };
        PaprDevice {
            address,
            outcome,
            receipts,
        }
    }

    fn refused() -> PaprDevice
        ensures { result ≡ refused_device }
    {
        PaprDevice {
            address: 0,
            outcome: 4,
            receipts: 0,
        }
    }
}

/// Whether there can be a window of so many entries from this bus address on.
fn is_window(entries: &[PaprEntry], base: u64) -> bool
    ensures { result ≡ bus.is_window (window_of base (states_of entries.now)) }
{
    Window::new(0, base, entries.len() as u64).is_some()
}

/// The entry of the page that has this bus address, in a window of these entries: none where there
/// can be no such window, or it lacks the page.
fn entry_of(entries: &[PaprEntry], base: u64, ioba: u64) -> Option<u32>
    ensures entry { result ≡ page_entry base (states_of entries.now) ioba }
    ensures in_window { IfSome result (λ entry. entry < length (states_of entries.now)) }
{
    Window::new(0, base, entries.len() as u64)?.entry_at(ioba)
}

/// Whether a TCE permits anything.
fn permits_any(tce: u64) -> bool
    ensures { result ≡ (words.permits tce false || words.permits tce true) }
{
    permits(tce, false) || permits(tce, true)
}

/// Whether the entry's stamp is at its last value.
fn is_worn(answer: Answer) -> bool
    ensures { result ≡ Rattle.entry_model.specs.Receipt.is_worn answer }
{
    matches!(answer, Answer::Worn)
}

/// Empties an entry.
fn clear(entries: &mut [PaprEntry], entry: u32, receipts: &mut [PaprReceipt]) -> PaprReply
    requires { entry < length (states_of entries.old) }
    ensures told { (result, memory (states_of entries.new) [] receipts.new)
        ≡ outcome_where true (clear_plan entry) (memory (states_of entries.old) [] receipts.old) }
    ensures marks { AreMarked entries.old entries.new }
{
    let room = receipts.len();
    let removed = make(entries, &REMOVAL, entry, receipts, 0);
    let stale = is_stale(removed.answer);
    PaprReply::answered(code_of(removed.answer), 0, filled_count(room, 1), stale)
}

/// Empties an entry, and makes this operation on it.
fn replace(
    entries: &mut [PaprEntry],
    entry: u32,
    op: &Op,
    receipts: &mut [PaprReceipt],
) -> PaprReply
    requires { entry < length (states_of entries.old) }
    ensures told { (result, memory (states_of entries.new) [] receipts.new)
        ≡ outcome_where
        true
        (replace_plan entry op.now)
        (memory (states_of entries.old) [] receipts.old) }
    ensures marks { AreMarked entries.old entries.new }
{
    let room = receipts.len();
    let removed = make(entries, &REMOVAL, entry, receipts, 0);
    let stale = is_stale(removed.answer);
    if is_worn(removed.answer) {
        return PaprReply::answered(Rc::Hardware, 0, filled_count(room, 1), stale);
    }
    let entered = make(entries, op, entry, receipts, 1);
    let stale = either_stale(removed.answer, entered.answer);
    PaprReply::answered(code_of(entered.answer), 0, filled_count(room, 2), stale)
}

/// H_PUT_TCE on the entry of a page.
fn put_at(
    entries: &mut [PaprEntry],
    entry: u32,
    grants: &PaprGrants,
    tce: u64,
    receipts: &mut [PaprReceipt],
) -> PaprReply
    requires { entry < length (states_of entries.old) }
    ensures told { let grants = listed grants.now.grants grants.now.count in
        (result, memory (states_of entries.new) [] receipts.new)
        ≡ outcome_where
        true
        (put_plan_at grants tce entry)
        (memory (states_of entries.old) [] receipts.old) }
    ensures marks { AreMarked entries.old entries.new }
{
    if !permits_any(tce) {
        return clear(entries, entry, receipts);
    }
    if !is_ram(grants, address(tce)) {
        return PaprReply::refused();
    }
    replace(entries, entry, &entering(tce), receipts)
}

/// H_PUT_TCE (LoPAR) on the entries of a window, one for each page of 4,096 bytes from the bus
/// address `base` on: sets the TCE of the page at `ioba`, over any that is there. A TCE that
/// permits nothing empties the entry. There are no words.
#[tactic(auto, unfolding(dma_window::specs::Calls::put_tce_plan))]
#[unsafe(no_mangle)]
pub extern "C" fn papr_put_tce(
    entries: &mut [PaprEntry],
    base: u64,
    grants: &PaprGrants,
    ioba: u64,
    tce: u64,
    receipts: &mut [PaprReceipt],
) -> PaprReply
    ensures told { (result, memory (states_of entries.new) [] receipts.new)
        ≡ outcome_of_tce
        base
        (λ w. put_tce_plan (listed grants.now.grants grants.now.count) w ioba tce)
        (memory (states_of entries.old) [] receipts.old) }
    ensures marks { AreMarked entries.old entries.new }
{
    let Some(entry) = entry_of(entries, base, ioba) else {
        return PaprReply::refused();
    };
    put_at(entries, entry, grants, tce, receipts)
}

/// H_GET_TCE (LoPAR) on the entries of a window: the word is the TCE of the page at `ioba`, or 0
/// where none is set.
#[tactic(auto, unfolding(dma_window::specs::Calls::get_tce_plan))]
#[unsafe(no_mangle)]
pub extern "C" fn papr_get_tce(
    entries: &mut [PaprEntry],
    base: u64,
    ioba: u64,
    words: &mut [u64],
    receipts: &mut [PaprReceipt],
) -> PaprReply
    ensures told { (result, memory (states_of entries.new) words.new receipts.new)
        ≡ outcome_of_tce
        base
        (λ w. get_tce_plan w ioba)
        (memory (states_of entries.old) words.old receipts.old) }
    ensures marks { AreMarked entries.old entries.new }
{
    let Some(entry) = entry_of(entries, base, ioba) else {
        return PaprReply::refused();
    };
    let filled = filled_count(receipts.len(), 1);
    let shown = filled_count(words.len(), 1);
    let read = make(entries, &Op::Read, entry, receipts, 0);
    put_word(tce_of(&read.before), words, 0);
    PaprReply::answered(Rc::Success, shown, filled, false)
}

/// A device's access at a bus address, a read or a write, by the entries of its window.
#[unsafe(no_mangle)]
pub extern "C" fn papr_device(
    entries: &mut [PaprEntry],
    base: u64,
    grants: &PaprGrants,
    ioba: u64,
    write: bool,
    receipts: &mut [PaprReceipt],
) -> PaprDevice
    ensures told { (result, receipts.new)
        ≡ outcome_of_device
        base
        (states_of entries.old)
        (listed grants.now.grants grants.now.count)
        ioba
        write
        receipts.old }
    ensures kept { entries.new ≡ entries.old }
{
    if !is_window(entries, base) {
        return PaprDevice::refused();
    }
    let Some(entry) = entry_of(entries, base, ioba) else {
        return PaprDevice::of(DeviceOutcome::NoWindow, 0);
    };
    let filled = filled_count(receipts.len(), 1);
    let read = make(entries, &Op::Read, entry, receipts, 0);
    PaprDevice::of(
        outcome_by(grants, tce_of(&read.before), ioba, write),
        filled,
    )
}
