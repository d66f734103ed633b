//! Entries of a table written as bytes in the layout of an image: all that are asked for, or none.
ghost use Rattle.std.specs.Prelude.{◌≡◌, ◌+◌, ◌*◌, ◌≤◌, ◌++◌, None, length, drop};
ghost use Rattle.byteorder.specs.Endian.{big_bytes};
ghost use Rattle.table_image.specs.Layouts.{laid_out};
ghost use Rattle.entry_model.specs.Reply.{words_of};
ghost use Rattle.c_layout.specs.Slots.{filled};
ghost use Rattle.papr_c.specs.Transfers.{bytes_of_entries, outcome_of_export};
ghost use Rattle.c_layout.specs.Entries.{states_of};

use crate::transfer::{PaprTransfer, Refusal, is_range, layout_of};
use byteorder::{BigEndian, ByteOrder};
use c_layout::{PaprEntry, is_table};
use entry_model::EntryState;
use hpt_resize::StateHolder;
use table_image::{Layout, in_layout};

/// The doublewords of an entry in this layout: none where it can't hold them.
fn words_in(layout: Layout, entry: &EntryState) -> Option<(u64, u64)>
    ensures { result ≡ laid_out layout (words_of entry.now) }
{
    let (dword0, dword1) = entry.words();
    in_layout(layout, dword0, dword1)
}

/// The first of so many entries that the layout can't hold.
fn first_unheld(layout: Layout, entries: &[PaprEntry], first: usize, number: usize) -> Option<usize>
    requires { first + number ≤ length (states_of entries.now) }
    ensures { result
        ≡ Rattle.papr_c.specs.Transfers.first_unheld
        layout
        (states_of entries.now)
        first
        number }
{
    for i in 0..number {
        if words_in(layout, &entries[first + i].state()).is_none() {
            return Some(first + i);
        }
    }
    None
}

/// Puts two doublewords into the first slots.
fn put_words(out: &mut [u8], dword0: u64, dword1: u64)
    requires { 16 ≤ length out.old }
    ensures { out.new ≡ (big_bytes 8 dword0 ++ big_bytes 8 dword1) ++ drop 16 out.old }
{
    BigEndian::write_u64(out, dword0);
    BigEndian::write_u64(&mut out[8..], dword1);
}

/// Puts the bytes of so many entries, each of which the layout holds, into the first slots.
fn put_bytes(layout: Layout, entries: &[PaprEntry], first: usize, number: usize, out: &mut [u8])
    requires in_table { first + number ≤ length (states_of entries.now) }
    requires room { 16 * number ≤ length out.old }
    requires held { Rattle.papr_c.specs.Transfers.first_unheld
        layout
        (states_of entries.now)
        first
        number
        ≡ None }
    ensures { out.new
        ≡ filled out.old (bytes_of_entries layout (states_of entries.now) first number) }
{
    for i in 0..number {
        let (dword0, dword1) = words_in(layout, &entries[first + i].state()).unwrap();
        put_words(&mut out[16 * i..], dword0, dword1);
    }
}

/// Writes `number` entries of a table, from the entry `first` on, as bytes: 16 an entry, the two
/// doublewords with R and C, big-endian, in the layout of the Power ISA 2.07 (0) or 3.0 (1). Stamps
/// are left out. Where the layout can't hold an entry nothing is written.
#[unsafe(no_mangle)]
pub extern "C" fn papr_export(
    entries: &[PaprEntry],
    order: u8,
    layout: u8,
    first: usize,
    number: usize,
    out: &mut [u8],
) -> PaprTransfer
    ensures { (result, out.new)
        ≡ outcome_of_export order (states_of entries.now) layout first number out.old }
{
    if !is_table(entries, order) || !is_range(entries.len(), first, number, out.len()) {
        return PaprTransfer::refused(0, Refusal::Arguments);
    }
    let Some(layout) = layout_of(layout) else {
        return PaprTransfer::refused(0, Refusal::Arguments);
    };
    if let Some(index) = first_unheld(layout, entries, first, number) {
        return PaprTransfer::refused(index, Refusal::Unheld);
    }
    put_bytes(layout, entries, first, number, out);
    PaprTransfer::done()
}
