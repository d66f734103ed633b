//! Receipts as C sees them, with the numbers of their answers, and how they are put into the
//! caller's slots.
ghost use Rattle.std.specs.Prelude.{◌≡◌, ◌≤◌, length, map, min, set};
ghost use Rattle.c_layout.specs.Slots.{filled, answer_number, shown_receipt};
ghost use Rattle.entry_model.specs.State.{bits_number};

use entry_model::{Answer, EntryState, Receipt};

/// One operation that was made on one entry, as C sees it. The two doublewords are those from
/// before it, so that an emulator can drop from its own cache what it had of the entry.
#[repr(C)]
#[derive(Clone, Copy)]
pub struct PaprReceipt {
    /// Doubleword 0 before; V is clear where the entry was empty.
    pub dword0: u64,
    /// Doubleword 1 before, with R and C.
    pub dword1: u64,
    /// The entry's index in its table.
    pub entry: u32,
    /// The entry's stamp before.
    pub stamp: u32,
    /// R and C before: R counts 2, and C counts 1.
    pub bits: u8,
    /// The number of what the entry answered.
    pub answer: u8,
}

fn answer_number(answer: Answer) -> u8
    ensures { result ≡ Rattle.c_layout.specs.Slots.answer_number answer }
{
    match answer {
        Answer::Entered => 0,
        Answer::Taken => 1,
        Answer::Removed => 2,
        Answer::Protected => 3,
        Answer::Was => 4,
        Answer::Words => 5,
        Answer::NotFound => 6,
        Answer::NoMatch => 7,
        Answer::Denied => 8,
        Answer::At => 9,
        Answer::Worn => 10,
        Answer::Masked => 11,
    }
}

fn bits_number(state: &EntryState) -> u8
    ensures { result ≡ Rattle.entry_model.specs.State.bits_number state.now }
{
    let referenced = if state.referenced { 2 } else { 0 };
    let changed = if state.changed { 1 } else { 0 };
    referenced + changed
}

/// The receipt as C has it.
fn shown(receipt: &Receipt) -> PaprReceipt
    ensures { result ≡ shown_receipt receipt.now }
{
    let (dword0, dword1) = receipt.before.words();
    PaprReceipt {
        dword0,
        dword1,
        entry: receipt.entry,
        stamp: receipt.before.stamp,
        bits: bits_number(&receipt.before),
        answer: answer_number(receipt.answer),
    }
}

/// Puts a receipt into the caller's slot, where there is one.
pub fn put_receipt(receipt: &Receipt, slots: &mut [PaprReceipt], index: u32)
    ensures { slots.new ≡ set slots.old index (shown_receipt receipt.now) }
{
    if (index as usize) < slots.len() {
        slots[index as usize] = shown(receipt);
    }
}

/// Puts receipts into the caller's slots, as far as these go, and gives how many it put.
pub fn put_receipts(made: &[Receipt], slots: &mut [PaprReceipt]) -> u32
    requires { length made.now ≤ 16 }
    ensures filled { slots.new ≡ filled slots.old (map shown_receipt made.now) }
    ensures count { result ≡ min (length slots.old) (length made.now) }
{
    let count = made.len().min(slots.len());
    for i in 0..count {
        slots[i] = shown(&made[i]);
    }
    count as u32
}
