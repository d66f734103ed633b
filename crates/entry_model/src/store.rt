//! The trait of all stores of page table entries: operations that leave receipts, accesses by
//! cached translations, and the laws that hold of every store.
ghost use Rattle.std.specs.Prelude.{IfSome, IfNone, ◌≡◌, ◌≤◌, ◌<◌, ◌^◌, ◌-◌, ◌++◌, [], ◌∷◌, List, ℕ};
ghost use Rattle.hpte_fields.specs.TableSize.{IsTableOrder, entry_count};
ghost use Rattle.entry_model.specs.declared.receipt.Receipt.{Receipt};
ghost use Rattle.entry_model.specs.declared.line.Line.{Line};
ghost use Rattle.entry_model.specs.Receipt.{IsNormal, IsReceiptOf};
ghost use Rattle.entry_model.specs.CachedLines.{IsAccessOf, IsCurrent, ShowsLine, AllLater};

use crate::line::Line;
use crate::operation::Op;
use crate::receipt::Receipt;

/// A store of page table entries, each of which answers operations one after the other.
///
/// A call that is generic over a store promises `made`, from its entry to its exit, of exactly the
/// receipts of its answer in their order: it invents none and leaves none out. It takes no memory.
pub trait EntryStore {
    /// Between two moments of one store its caller made just these receipts, in this order.
    ghost made: { Self → Self → List Receipt → Type 0 };

    /// The line holds of its entry's state, as far as this store's caller has seen it.
    ghost seen: { Self → Line → Type 0 };

    /// The line's entry has left the line's stamp.
    ghost gone: { Self → Line → Type 0 };

    /// The table has 2 ^ table_order bytes, and an entry has 16.
    ghost table_order: { Self → ℕ };

    /// The binary logarithm of the table's size in bytes.
    fn order(&self) -> u8
        ensures value { result ≡ table_order self.now }
        ensures order { IsTableOrder result };

    /// Makes an operation on an entry.
    fn apply(&mut self, entry: u32, op: Op) -> Receipt
        requires in_table { entry < entry_count (table_order self.old) }
        requires normal { IsNormal op }
        ensures receipt { IsReceiptOf entry op result }
        ensures made { made self.old self.new (result ∷ []) };

    /// Makes an access by a line that was seen. `None` where the line's entry has left the line's
    /// stamp: then no operation was made.
    fn apply_known(&mut self, known: &Line, op: Op) -> Option<Receipt>
        requires seen { seen self.old known.now }
        requires access { IsAccessOf known.now op }
        ensures receipt { IfSome result (λ r. IsReceiptOf known.now.entry op r) }
        ensures current { IfSome result (λ r. IsCurrent known.now r.before) }
        ensures made { IfSome result (λ r. made self.old self.new (r ∷ [])) }
        ensures nothing { IfNone result (made self.old self.new []) }
        ensures is_gone { IfNone result (gone self.new known.now) };

    /// Between a moment and itself nothing was made.
    ghost made_none: { (s : Self) → made s s [] };

    /// What was made in two stretches of time, one after the other, was made in both together.
    ghost made_more: { (first between last : Self) (early late : List Receipt)
        → made first between early
        → made between last late
        → made first last (early ++ late) };

    /// No call changes the order.
    ghost order_stays: { (before after : Self) (receipts : List Receipt)
        → made before after receipts
        → table_order after ≡ table_order before };

    /// What was seen of an entry holds of it from then on.
    ghost seen_stays: { (before after : Self) (receipts : List Receipt) (line : Line)
        → made before after receipts
        → seen before line
        → seen after line };

    /// An answer that used an entry's translation shows the entry's line.
    ghost shown_is_seen: { (before after : Self) (receipts : List Receipt) (line : Line)
        → made before after receipts
        → ShowsLine line receipts
        → seen after line };

    /// An entry never comes back to a stamp that it has left.
    ghost gone_stays: { (before after : Self) (receipts : List Receipt) (line : Line)
        → made before after receipts
        → gone before line
        → gone after line };

    /// Receipts of an entry that had left the line's stamp come after the line.
    ghost later_than_gone: { (before after : Self) (receipts : List Receipt) (line : Line)
        → made before after receipts
        → gone before line
        → AllLater line receipts };
}
