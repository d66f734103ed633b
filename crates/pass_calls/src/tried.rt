//! What calls that may be held up need of a store: operations that may find their entry busy, and
//! laws of what was made between two moments.
ghost use Rattle.std.specs.Prelude.{◌≡◌, ◌≤◌, ◌<◌, ◌++◌, [], ◌∷◌, List, ℕ, IfOk, IfErr, IsOk};
ghost use Rattle.hpte_fields.specs.TableSize.{IsTableOrder, entry_count};
ghost use Rattle.entry_model.specs.declared.receipt.Receipt.{Receipt};
ghost use Rattle.entry_model.specs.Receipt.{IsNormal, IsReceiptOf};
ghost use Rattle.entry_lock.specs.declared.busy.Busy.{Busy};
ghost use Rattle.pass_calls.specs.HeldUp.{IsBusyAt};

use entry_lock::Busy;
use entry_model::{Op, Receipt};

/// A store of page table entries, each of which may be busy.
pub trait TriedStore {
    /// Between two moments of one store its caller made just these receipts, in this order.
    ghost made: { Self → Self → List Receipt → Type 0 };

    /// Between two moments of one store its caller took steps, the last of which was on this entry
    /// and has the two control words of the answer.
    ghost told: { Self → Self → ℕ → Busy → Type 0 };

    /// The table has 2 ^ table_order bytes, and an entry has 16.
    ghost table_order: { Self → ℕ };

    /// Nobody else can be at an entry.
    ghost alone: { Self → Type 0 };

    /// The binary logarithm of the table's size in bytes.
    fn order(&self) -> u8
        ensures value { result ≡ table_order self.now }
        ensures order { IsTableOrder result };

    /// Makes an operation on an entry.
    ///
    /// # Errors
    /// Busy where somebody else was at the entry. Then nothing was made.
    fn try_apply(&mut self, entry: u32, op: Op) -> Result<Receipt, Busy>
        requires in_table { entry < entry_count (table_order self.old) }
        requires normal { IsNormal op }
        ensures receipt { IfOk result (λ r. IsReceiptOf entry op r) }
        ensures made { IfOk result (λ r. made self.old self.new (r ∷ [])) }
        ensures nothing { IfErr result (λ b. made self.old self.new []) }
        ensures busy { IfErr result (λ b. IsBusyAt entry op b) }
        ensures told { IfErr result (λ b. told self.old self.new entry b) }
        ensures alone { alone self.old → IsOk result };

    /// Between a moment and itself nothing was made.
    ghost made_none: { (s : Self) → made s s [] };

    /// What was made in two stretches of time, one after the other, was made in both together.
    ghost made_more: { (first between last : Self) (early late : List Receipt)
        → made first between early
        → made between last late
        → made first last (early ++ late) };

    /// What the last step found holds also of a longer stretch of time with the same end.
    ghost told_since: { (first between last : Self) (receipts : List Receipt) (entry : ℕ) (b : Busy)
        → made first between receipts
        → told between last entry b
        → told first last entry b };

    /// No call changes the order.
    ghost order_stays: { (before after : Self) (receipts : List Receipt)
        → made before after receipts
        → table_order after ≡ table_order before };

    /// Who is alone stays alone.
    ghost alone_stays: { (before after : Self) (receipts : List Receipt)
        → made before after receipts
        → alone before
        → alone after };
}
