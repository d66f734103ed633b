//! A store that tries again while an entry is busy.
ghost use Rattle.std.specs.Prelude.{◌≡◌};
ghost use Rattle.entry_lock.specs.PassOfTable.{IsOf};

use crate::pause::Pause;
use crate::table::{LockTable, Pass};
use entry_model::{EntryStore, Line, Op, Receipt};
use std::sync::Wait;

/// A pass over a table, as a store: each call tries until the entry isn't busy. So it may wait, and
/// whether it ever gets on isn't said.
#[derive(Drop)]
pub struct Waiting<'a, R, P> {
    rt: &'a R,
    table: &'a LockTable,
    pass: Pass,
    pause: &'a P,
    pub ghost of: { IsOf table.now pass },
}

impl<'a, R, P> Waiting<'a, R, P> {
    /// The store of a pass of this table, with a pause for tests: no clause says that it is called.
    pub fn new(rt: &'a R, table: &'a LockTable, pass: Pass, pause: &'a P) -> Waiting<'a, R, P>
        requires { IsOf table.now pass }
        ensures { (result.pass ≡ pass) × (result.table.now ≡ table.now) }
    {
        Waiting {
            rt,
            table,
            pass,
            pause,
        }
    }

    /// The pass as it then is.
    pub fn into_pass(self) -> Pass
        ensures { result ≡ self.entry.pass }
    {
        let Waiting {
            rt: _,
            table: _,
            pass,
            pause: _,
        } = self;
        pass
    }
}

impl<'a, R: Wait, P: Pause> EntryStore for Waiting<'a, R, P> {
    ghost use Rattle.std.specs.Prelude.{◌≡◌, ◌<◌, [], ◌++◌, flat_map, Contains};
    ghost use Rattle.std.proofs.Common.{refl, sym, ap, ◌∙◌, subst, inl, append_assoc, append-nil};
    ghost use Rattle.std.proofs.Math.Logic.{⊎_map};
    ghost use Rattle.std.proofs.lemmas.Grind.{flat_map-append};
    ghost use Rattle.std.proofs.lemmas.List.Elements.{All-nil, All-append, Contains-append_left, Contains-append_right};
    ghost use Rattle.hpte_fields.specs.TableSize.{entry_count};
    ghost use Rattle.entry_model.specs.Fronts.{IsGone};
    ghost use Rattle.entry_model.proofs.FrontLaws.{below_self, keeps_more, keeps_below, gone_on, gone_past};
    ghost use Rattle.entry_model.proofs.LineLaws.{shown_entry};
    ghost use Rattle.lock_core.specs.Machine.{shown_sightings};
    ghost use Rattle.lock_core.specs.Laws.{sighting_by};
    ghost use Rattle.lock_core.proofs.Shown.{shown_line};
    ghost use Rattle.entry_lock.specs.PassOfTable.{view_of};
    ghost use Rattle.entry_lock.specs.WaitingStore.{IsInTable, MadeReceipts, MadeInTable, IsSeenInTable};

    // The pass made just these receipts, on entries of the same table.
    ghost made = { λ a b rs.
        MadeInTable a.table.now.order (view_of a.pass) (view_of b.pass) rs
        × (b.table.now ≡ a.table.now) };

    // The line is one of the pass's list, or holds of its entry's opening state.
    ghost seen = { λ s cached.
        IsSeenInTable s.table.now.order (view_of s.pass).actor.lines
        s.table.now.opening.items cached };

    // The pass's front is past the line.
    ghost gone = { λ s cached. IsGone (view_of s.pass).fronts cached };

    ghost table_order = { λ s. s.table.now.order };

    fn order(&self) -> u8 {
        self.table.order()
    }

    fn apply(&mut self, entry: u32, op: Op) -> Receipt {
        for _ in self.rt.forever() {
            if let Ok(receipt) = self.pass.try_with(self.table, entry, op, self.pause) {
                return receipt;
            }
        }
        unreachable!()
    }

    fn apply_known(&mut self, known: &Line, op: Op) -> Option<Receipt> {
        for _ in self.rt.forever() {
            if let Ok(answer) = self.pass.try_known(self.table, known, op) {
                return answer;
            }
        }
        unreachable!()
    }

    ghost made_none = { λ s.
        let v = view_of s.pass in
        let made : MadeReceipts v v [] = record {
          receipts = sym (append-nil v.actor.receipts);
          lines = sym (append-nil v.actor.lines);
          fronts = below_self v.fronts;
          numbers = refl;
        } in
        (record { made = made; inside = All-nil (IsInTable s.table.now.order) }, refl) };

    ghost made_more = { λ first between last early late before after.
        let u = view_of first.pass in
        let v = view_of between.pass in
        let w = view_of last.pass in
        let inside = IsInTable first.table.now.order in
        let a = before.0 in
        let b : MadeInTable first.table.now.order v w late =
        subst (λ t. MadeInTable t.order v w late) before.1 after.0 in
        let made : MadeReceipts u w (early ++ late) = record {
          receipts =
              b.made.receipts ∙ ap (λ l. l ++ late) a.made.receipts
              ∙ append_assoc u.actor.receipts early late;
          lines =
              b.made.lines ∙ ap (λ l. l ++ flat_map shown_sightings late) a.made.lines
              ∙ append_assoc u.actor.lines (flat_map shown_sightings early)
              (flat_map shown_sightings late)
              ∙ ap (λ l. u.actor.lines ++ l) (sym (flat_map-append shown_sightings early late));
          fronts = keeps_more u.fronts v.fronts w.fronts early late a.made.fronts b.made.fronts;
          numbers = b.made.numbers ∙ a.made.numbers;
        } in (
          record { made = made; inside = All-append inside early late a.inside b.inside },
          after.1 ∙ before.1,
        ) };

    ghost order_stays = { λ before after receipts made. ap (λ t. t.order) made.1 };

    ghost seen_stays = { λ before after receipts cached made seen.
        let v = view_of before.pass in
        let w = view_of after.pass in
        let table = before.table.now in
        let stays : Contains v.actor.lines (sighting_by cached)
        → Contains w.actor.lines (sighting_by cached) = λ had.
        subst (λ l. Contains l (sighting_by cached)) (sym made.0.made.lines)
        (Contains-append_left v.actor.lines (flat_map shown_sightings receipts)
        (sighting_by cached) had) in
        let now : IsSeenInTable table.order w.actor.lines table.opening.items cached =
        record { inside = seen.inside; seen = ⊎_map stays (λ holds. holds) seen.seen } in
        subst (λ t. IsSeenInTable t.order w.actor.lines t.opening.items cached) (sym made.1) now };

    ghost shown_is_seen = { λ before after receipts cached made shows.
        let v = view_of before.pass in
        let w = view_of after.pass in
        let table = before.table.now in
        let listed : Contains w.actor.lines (sighting_by cached) =
        subst (λ l. Contains l (sighting_by cached)) (sym made.0.made.lines)
        (Contains-append_right v.actor.lines (flat_map shown_sightings receipts)
        (sighting_by cached) (shown_line receipts cached shows)) in
        let now : IsSeenInTable table.order w.actor.lines table.opening.items cached = record {
          inside =
              shown_entry (λ entry. entry < entry_count table.order) receipts cached
              made.0.inside shows;
          seen = inl listed;
        } in
        subst (λ t. IsSeenInTable t.order w.actor.lines t.opening.items cached) (sym made.1) now };

    ghost gone_stays = { λ before after receipts cached made gone.
        let old = (view_of before.pass).fronts in
        let new = (view_of after.pass).fronts in
        gone_on old new cached (keeps_below old new receipts made.0.made.fronts) gone };

    ghost later_than_gone = { λ before after receipts cached made gone.
        let old = (view_of before.pass).fronts in
        let new = (view_of after.pass).fronts in
        gone_past old new receipts cached made.0.made.fronts gone };
}
