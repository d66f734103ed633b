//! One operation on a window's entry, with its receipt appended. Every store has the entry, since
//! the smallest table has 2^14 of them.
ghost use Rattle.std.specs.Prelude.{◌≡◌, ◌<◌, ◌^◌, ◌++◌, [], ◌∷◌, length};
ghost use Rattle.entry_model.specs.Receipt.{IsNormal, IsReceiptOf};

use entry_model::{EntryStore, Op, Receipt, Receipts};

/// Makes an operation on a window's entry, and puts its receipt after those that are there.
pub fn make<T: EntryStore>(store: &mut T, entry: u32, op: Op, receipts: &mut Receipts) -> Receipt
    requires in_window { entry < 2 ^ 14 }
    requires normal { IsNormal op }
    requires room { length receipts.old < 16 }
    ensures receipt { IsReceiptOf entry op result }
    ensures made { T.made store.old store.new (result ∷ []) }
    ensures behind { receipts.new ≡ receipts.old ++ result ∷ [] }
{
    // No store is so small that it lacks the entry.
    let _order = store.order();
    let made = store.apply(entry, op);
    let receipt = &made;
    receipts.push(*receipt);
    *receipt
}
