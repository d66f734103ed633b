//! The store of one caller: a list of entry states, where each operation is answered by the entry's
//! own reply, with no lock and no waiting.
ghost use Rattle.std.specs.Prelude.{◌≡◌, ◌≤◌, ◌<◌, ◌-◌, ◌^◌, vec_len};
ghost use Rattle.hpte_fields.specs.TableSize.{IsTableOrder, entry_count};
ghost use Rattle.entry_model.specs.Run.{state_at};

use entry_model::{EntryState, EntryStore, Line, Op, Receipt, reply};
use std::marker::Model;

/// A table of 2^order bytes, so of 2^(order - 4) entries. Contracts see it as the list of their
/// states and the order.
#[derive(Drop)]
pub struct PlainTable {
    states: Vec<EntryState>,
    order: u8,
}

impl Model for PlainTable {
    ghost use Rattle.std.specs.Prelude.{◌≡◌, vec_len};
    ghost use Rattle.hpte_fields.specs.TableSize.{IsTableOrder, entry_count};
    ghost use Rattle.papr_table.specs.TableState.{TableState};

    ghost Value = { TableState };

    ghost view = { λ t. record { states = t.states.items; order = t.order } };

    ghost invariant = { λ t.
        IsTableOrder t.order × (vec_len t.states ≡ entry_count t.order) };
}

impl PlainTable {
    /// The table of these states.
    pub fn open(states: Vec<EntryState>, order: u8) -> PlainTable
        requires order { IsTableOrder order }
        requires whole { vec_len states ≡ entry_count order }
        ensures states { result.states ≡ states.items }
        ensures order { result.order ≡ order }
    {
        PlainTable { states, order }
    }

    /// The state of an entry.
    pub fn state(&self, entry: u32) -> EntryState
        requires { entry < entry_count self.now.order }
        ensures { result ≡ state_at self.now.states entry }
    {
        self.states[entry as usize]
    }

    /// Gives the states back.
    pub fn close(self) -> Vec<EntryState>
        ensures { result.items ≡ self.states }
    {
        let PlainTable { states, order: _ } = self;
        states
    }
}

impl EntryStore for PlainTable {
    ghost use Rattle.std.specs.Prelude.{refl};
    ghost use Rattle.std.proofs.Common.{◌∙◌};
    ghost use Rattle.entry_model.proofs.Runs.{run_more};
    ghost use Rattle.entry_model.proofs.LineLaws.{run_holds, run_shows, run_leaves, run_past};
    ghost use Rattle.papr_table.specs.TableState.{IsMade, IsSeen, IsGone};

    ghost made = { IsMade };

    ghost seen = { IsSeen };

    ghost gone = { IsGone };

    ghost table_order = { λ t. t.order };

    fn order(&self) -> u8 {
        self.order
    }

    // In line, so that a loop over entries doesn't store the operation again for each of them.
    #[inline(always)]
    fn apply(&mut self, entry: u32, op: Op) -> Receipt {
        let index = entry as usize;
        let before = self.states[index];
        let (answer, after) = reply(&before, &op);
        self.states[index] = after;
        Receipt {
            entry,
            before,
            op,
            answer,
        }
    }

    fn apply_known(&mut self, known: &Line, op: Op) -> Option<Receipt> {
        let state = self.states[known.entry as usize];
        if state.valid && state.stamp == known.stamp {
            Some(self.apply(known.entry, op))
        } else {
            None
        }
    }

    ghost made_none = { λ s. record { run = refl; order = refl } };

    ghost made_more = { λ a b c xs ys h k.
        record {
          run = run_more a.states b.states c.states xs ys h.run k.run;
          order = k.order ∙ h.order;
        } };

    ghost order_stays = { λ a b xs h. h.order };

    ghost seen_stays = { λ a b xs line h seen. run_holds a.states b.states xs line h.run seen };

    ghost shown_is_seen = { λ a b xs line h shows.
        run_shows a.states b.states xs line h.run shows };

    ghost gone_stays = { λ a b xs line h gone. run_leaves a.states b.states xs line h.run gone };

    ghost later_than_gone = { λ a b xs line h gone. run_past a.states b.states xs line h.run gone };
}
