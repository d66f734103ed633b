//! Entries of a table read from bytes in the layout of an image, each as H_ENTER would store it:
//! all that are asked for, or none.
ghost use Rattle.std.specs.Prelude.{◌≡◌, ◌+◌, ◌*◌, ◌≤◌, ◌<◌, None, IfSome, length};
ghost use Rattle.c_layout.specs.Grants.{listed};
ghost use Rattle.papr_c.specs.Transfers.{replaced, entries_of_bytes, outcome_of_import};
ghost use Rattle.c_layout.specs.Entries.{states_of, AreMarked};

use crate::transfer::{PaprTransfer, Refusal, is_range, layout_of};
use byteorder::{BigEndian, ByteOrder};
use c_layout::{PaprEntry, PaprGrants, is_table};
use entry_model::{EntryState, entered};
use hpt_resize::StateHolder;
use hpte_fields::VALID;
use page_grants::entered_words;
use table_image::{Layout, from_layout};

/// The entry of two doublewords of this layout.
fn entry_of_words(
    grants: &PaprGrants,
    layout: Layout,
    dword0: u64,
    dword1: u64,
) -> Result<EntryState, Refusal>
    ensures { result
        ≡ Rattle.papr_c.specs.Transfers.entry_of_words
        (listed grants.now.grants grants.now.count)
        layout
        (dword0, dword1) }
{
    if dword0 & VALID == 0 {
        return Ok(EntryState::empty(0));
    }
    let (pteh, ptel) = from_layout(layout, dword0, dword1).ok_or(Refusal::Unheld)?;
    let (dword0, dword1) = entered_words(grants, pteh, ptel).ok_or(Refusal::Unentered)?;
    Ok(entered(dword0, dword1))
}

/// The entry of the 16 bytes after those of `i` others.
fn entry_of_bytes(
    grants: &PaprGrants,
    layout: Layout,
    bytes: &[u8],
    i: usize,
) -> Result<EntryState, Refusal>
    requires { 16 * i + 16 ≤ length bytes.now }
    ensures { result
        ≡ Rattle.papr_c.specs.Transfers.entry_of_bytes
        (listed grants.now.grants grants.now.count)
        layout
        bytes.now
        i }
{
    let entry = &bytes[16 * i..];
    let (dword0, dword1) = (BigEndian::read_u64(entry), BigEndian::read_u64(&entry[8..]));
    entry_of_words(grants, layout, dword0, dword1)
}

/// The first of so many entries that is refused.
fn first_refused(grants: &PaprGrants, layout: Layout, bytes: &[u8], number: usize) -> Option<usize>
    requires { 16 * number ≤ length bytes.now }
    ensures value { result
        ≡ Rattle.papr_c.specs.Transfers.first_refused
        (listed grants.now.grants grants.now.count)
        layout
        bytes.now
        number }
    ensures low { IfSome result (λ i. i < number) }
{
    for i in 0..number {
        if entry_of_bytes(grants, layout, bytes, i).is_err() {
            return Some(i);
        }
    }
    None
}

/// Replaces so many entries, from the first on, by those of the bytes, none of which is refused.
#[tactic(auto, using(c_layout::proofs::Marks::marked_none))]
fn store_entries_in_table(
    grants: &PaprGrants,
    layout: Layout,
    bytes: &[u8],
    number: usize,
    first: usize,
    entries: &mut [PaprEntry],
)
    requires enough { 16 * number ≤ length bytes.now }
    requires in_table { first + number ≤ length (states_of entries.old) }
    requires entered { Rattle.papr_c.specs.Transfers.first_refused
        (listed grants.now.grants grants.now.count)
        layout
        bytes.now
        number
        ≡ None }
    ensures entries { let grants = listed grants.now.grants grants.now.count in
        states_of entries.new
        ≡ replaced
        (states_of entries.old)
        first
        (entries_of_bytes grants layout bytes.now number) }
    ensures marks { AreMarked entries.old entries.new }
{
    for i in 0..number {
        let state = entry_of_bytes(grants, layout, bytes, i).unwrap();
        entries[first + i].hold(&state);
    }
}

/// Reads `number` entries of a table from bytes, from the entry `first` on: 16 an entry, as
/// `papr_export` writes them in this layout. Each is what H_ENTER stores of its two doublewords, at
/// stamp 0, or empty where V is clear; what was there is dropped. Where H_ENTER would refuse one,
/// or the layout has no such entry, nothing changes.
#[tactic(auto, using(c_layout::proofs::Marks::marked_none))]
#[unsafe(no_mangle)]
pub extern "C" fn papr_import(
    entries: &mut [PaprEntry],
    order: u8,
    grants: &PaprGrants,
    layout: u8,
    first: usize,
    number: usize,
    bytes: &[u8],
) -> PaprTransfer
    ensures told { (result, states_of entries.new)
        ≡ outcome_of_import
        order
        (states_of entries.old)
        (listed grants.now.grants grants.now.count)
        layout
        first
        number
        bytes.now }
    ensures marks { AreMarked entries.old entries.new }
{
    if !is_table(entries, order) || !is_range(entries.len(), first, number, bytes.len()) {
        return PaprTransfer::refused(0, Refusal::Arguments);
    }
    let Some(layout) = layout_of(layout) else {
        return PaprTransfer::refused(0, Refusal::Arguments);
    };
    if let Some(i) = first_refused(grants, layout, bytes, number) {
        return match entry_of_bytes(grants, layout, bytes, i) {
            Ok(_) => PaprTransfer::done(),
            Err(refusal) => PaprTransfer::refused(first + i, refusal),
        };
    }
    store_entries_in_table(grants, layout, bytes, number, first, entries);
    PaprTransfer::done()
}
