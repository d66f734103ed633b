//! A store that stops at a gate.
ghost use Rattle.std.specs.Prelude.{◌≡◌};

use crate::gate::{AtLine, Gate};
use entry_model::{EntryStore, Line, Op, Receipt};

/// A store that calls the gate before each operation but the first, and passes the operation on.
#[derive(Drop)]
pub struct Stepping<'a, S, G> {
    /// The store that makes the operations.
    pub store: S,
    /// The gate that is called, and at which line.
    pub at: &'a AtLine<'a, G>,
    /// Whether the first operation was made.
    pub started: bool,
}

impl<'a, S, G: Gate> Stepping<'a, S, G> {
    // The first operation is made at once.
    fn step(&mut self)
        ensures { self.new.store ≡ self.old.store }
    {
        if self.started {
            self.at.gate.step(self.at.cpu, self.at.line);
        }
        self.started = true;
    }
}

impl<'a, S: EntryStore, G: Gate> EntryStore for Stepping<'a, S, G> {
    ghost made = { λ a b rs. S.made a.store b.store rs };

    ghost seen = { λ s line. S.seen s.store line };

    ghost gone = { λ s line. S.gone s.store line };

    ghost table_order = { λ s. S.table_order s.store };

    fn order(&self) -> u8 {
        self.store.order()
    }

    fn apply(&mut self, entry: u32, op: Op) -> Receipt {
        self.step();
        self.store.apply(entry, op)
    }

    fn apply_known(&mut self, known: &Line, op: Op) -> Option<Receipt> {
        self.step();
        self.store.apply_known(known, op)
    }

    ghost made_none = { λ s. S.made_none s.store };

    ghost made_more = { λ a b c xs ys. S.made_more a.store b.store c.store xs ys };

    ghost order_stays = { λ a b xs. S.order_stays a.store b.store xs };

    ghost seen_stays = { λ a b xs line. S.seen_stays a.store b.store xs line };

    ghost shown_is_seen = { λ a b xs line. S.shown_is_seen a.store b.store xs line };

    ghost gone_stays = { λ a b xs line. S.gone_stays a.store b.store xs line };

    ghost later_than_gone = { λ a b xs line. S.later_than_gone a.store b.store xs line };
}
