//! A sharer as a store, each entry of which may be busy.
use crate::sharer::Sharer;
use entry_lock::Busy;
use entry_model::{Op, Receipt};
use pass_calls::TriedStore;

impl TriedStore for Sharer {
    ghost use Rattle.std.specs.Prelude.{◌≡◌, ◌++◌, [], flat_map};
    ghost use Rattle.std.specs.Arc.{arc_value};
    ghost use Rattle.std.proofs.Common.{refl, ap, sym, ◌∙◌, append_assoc, append-nil, le_refl, le_trans, lt_of_le_of_lt};
    ghost use Rattle.std.proofs.lemmas.Grind.{flat_map-append};
    ghost use Rattle.entry_model.proofs.FrontLaws.{below_self, keeps_more, keeps_below, one_keeps};
    ghost use Rattle.lock_core.specs.Machine.{shown_sightings};
    ghost use Rattle.entry_lock.specs.PassOfTable.{view_of};
    ghost use Rattle.entry_lock.specs.WaitingStore.{MadeReceipts};
    ghost use Rattle.shared_pass.specs.Made.{MadeBy, ToldBy, order_of, passes_of};

    ghost made = { MadeBy };

    ghost told = { ToldBy };

    ghost table_order = { λ s. (arc_value s.table).order };

    // The pass has all shares of its table.
    ghost alone = { λ s. s.pass.shares ≡ (arc_value s.table).passes };

    fn order(&self) -> u8 {
        self.table.order()
    }

    #[inline(always)]
    fn try_apply(&mut self, entry: u32, op: Op) -> Result<Receipt, Busy> {
        self.pass.try_apply(&self.table, entry, op)
    }

    ghost made_none = { λ s.
        let v = view_of s.pass in
        let made : MadeReceipts v v [] = record {
          receipts = sym (append-nil v.actor.receipts);
          lines = sym (append-nil v.actor.lines);
          fronts = below_self v.fronts;
          numbers = refl;
        } in record { table = refl; shares = refl; made = made; count = le_refl v.count } };

    ghost made_more = { λ first between last early late before after.
        let u = view_of first.pass in
        let v = view_of between.pass in
        let w = view_of last.pass in
        let a = before.made in
        let b = after.made in
        let made : MadeReceipts u w (early ++ late) = record {
          receipts =
              b.receipts ∙ ap (λ l. l ++ late) a.receipts
              ∙ append_assoc u.actor.receipts early late;
          lines =
              b.lines ∙ ap (λ l. l ++ flat_map shown_sightings late) a.lines
              ∙ append_assoc u.actor.lines (flat_map shown_sightings early)
              (flat_map shown_sightings late)
              ∙ ap (λ l. u.actor.lines ++ l) (sym (flat_map-append shown_sightings early late));
          fronts = keeps_more u.fronts v.fronts w.fronts early late a.fronts b.fronts;
          numbers = b.numbers ∙ a.numbers;
        } in record {
          table = after.table ∙ before.table;
          shares = after.shares ∙ before.shares;
          made = made;
          count = le_trans before.count after.count;
        } };

    ghost told_since = { λ first between last receipts entry b made told. record {
      entry = told.entry;
      count = lt_of_le_of_lt made.count told.count;
      last = told.last;
      looked = told.looked;
      found = told.found;
    } };

    ghost order_stays = { λ before after receipts made.
        ap order_of made.table };

    ghost alone_stays = { λ before after receipts made all.
        made.shares ∙ all ∙ sym (ap passes_of made.table) };
}
