//! An entry store without entries: it answers operations from a list of states, so that calls and
//! walks can be made again.
ghost use Rattle.hpte_fields.specs.TableSize.{IsTableOrder};
ghost use Rattle.std.specs.Prelude.{◌≡◌, false};
ghost use Rattle.entry_model.specs.State.{IsCanonicalState};
ghost use Rattle.entry_model.specs.Receipt.{is_decided, IsReceiptOf};
ghost use Rattle.history_check.specs.Replay.{after_receipt, found_state};

use entry_model::{Answer, EntryState, EntryStore, Line, Op, Receipt, reply};
use std::marker::Model;

/// A store that answers operations on states that are given one after the other, whatever the
/// entry.
#[derive(Drop)]
pub struct Replay<'a> {
    states: &'a [EntryState],
    order: u8,
    decided: bool,
}

impl<'a> Model for Replay<'a> {
    ghost use Rattle.hpte_fields.specs.TableSize.{IsTableOrder};
    ghost use Rattle.history_check.specs.Replay.{ReplayState};

    ghost Value = { ReplayState };

    ghost view = { λ r.
        record { order = r.order; states = r.states.now; decided = r.decided } };

    ghost invariant = { λ r. IsTableOrder r.order };
}

fn is_decided(answer: Answer) -> bool
    ensures { result ≡ Rattle.entry_model.specs.Receipt.is_decided answer }
{
    matches!(answer, Answer::Denied | Answer::Masked | Answer::At)
}

/// The state that comes after all those that were given.
fn state_past_end(op: &Op) -> EntryState
    ensures { result ≡ Rattle.history_check.specs.Replay.state_past_end op.now }
{
    match op {
        Op::Enter { .. } => EntryState {
            valid: true,
            dword0: 0,
            dword1: 0,
            referenced: false,
            changed: false,
            stamp: 0,
        },
        _ => EntryState::empty(0),
    }
}

impl<'a> Replay<'a> {
    /// A store of a table of `2^order` bytes that answers on these states.
    pub fn new(states: &'a [EntryState], order: u8) -> Replay<'a>
        requires order { IsTableOrder order }
        ensures states { result.states ≡ states.now }
        ensures order { result.order ≡ order }
        ensures decided { result.decided ≡ false }
    {
        Replay {
            states,
            order,
            decided: false,
        }
    }

    // The state that comes next.
    fn next(&self, op: &Op) -> EntryState
        ensures { result ≡ found_state self.now.states op.now }
    {
        match self.states.first() {
            Some(state) => *state,
            None => state_past_end(op),
        }
    }

    // The receipt of this operation on this state, in the place of the next.
    #[inline(always)]
    fn answer(&mut self, entry: u32, before: EntryState, op: Op) -> Receipt
        ensures receipt { IsReceiptOf entry op result }
        ensures before { result.before ≡ before }
        ensures canonical { IsCanonicalState result.before }
        ensures after { self.new ≡ after_receipt self.old result }
    {
        let (answer, _) = reply(&before, &op);
        if is_decided(answer) {
            self.decided = true;
        }
        if let Some((_, others)) = self.states.split_first() {
            self.states = others;
        }
        Receipt {
            entry,
            before,
            op,
            answer,
        }
    }
}

impl<'a> EntryStore for Replay<'a> {
    ghost use Rattle.std.specs.Prelude.{refl};
    ghost use Rattle.history_check.specs.Replay.{IsReplayed, IsSeen, IsGone};
    ghost use Rattle.history_check.specs.ReplayLaws.{made_more, order_stays, seen_stays, shown_is_seen};

    ghost made = { IsReplayed };

    ghost seen = { IsSeen };

    ghost gone = { IsGone };

    ghost table_order = { λ t. t.order };

    fn order(&self) -> u8 {
        self.order
    }

    // In line, as that of a plain table is.
    #[inline(always)]
    fn apply(&mut self, entry: u32, op: Op) -> Receipt {
        let before = self.next(&op);
        self.answer(entry, before, op)
    }

    fn apply_known(&mut self, known: &Line, op: Op) -> Option<Receipt> {
        let before = EntryState {
            valid: true,
            dword0: known.dword0,
            dword1: known.dword1,
            referenced: false,
            changed: false,
            stamp: known.stamp,
        };
        Some(self.answer(known.entry, before, op))
    }

    ghost made_none = { λ s. refl };

    ghost made_more = { made_more };

    ghost order_stays = { order_stays };

    ghost seen_stays = { seen_stays };

    ghost shown_is_seen = { shown_is_seen };

    ghost gone_stays = { λ a b xs line h gone. gone };

    ghost later_than_gone = { λ a b xs line h gone. absurd gone };
}
