//! What a pass does: tries of operations, splits and joins.
ghost use Rattle.std.specs.Prelude.{◌≡◌, ◌⊎◌, ℕ, ◌+◌, ◌-◌, ◌<◌, ◌≤◌, ◌^◌, [], ◌∷◌, ◌++◌, length, IfOk, IfErr, IfSome, IfNone, IsOk, MatchBool, if◌then◌else◌};
ghost use Rattle.hpte_fields.specs.TableSize.{entry_count};
ghost use Rattle.entry_model.specs.declared.line.Line.{Line as LineOf};
ghost use Rattle.entry_model.specs.Receipt.{is_access, IsReceiptOf};
ghost use Rattle.entry_model.specs.CachedLines.{IsAccessOf, IsCurrent};
ghost use Rattle.entry_model.specs.Fronts.{larger, IsGone};
ghost use Rattle.lock_core.specs.declared.step.Step.TheVariants.{Look, Mark, Split as SplitStep, Join as JoinStep};
ghost use Rattle.entry_lock.specs.SeenLines.{IsSeen};
ghost use Rattle.entry_lock.specs.PassOfTable.{IsOf, view_of};
ghost use Rattle.entry_lock.specs.BusyCauses.{IsHeldElsewhere, IsChanging, IsMissedMark};
ghost use Rattle.entry_lock.specs.Views.{first_number, second_number};
ghost use Rattle.entry_lock.specs.CallSteps.{Took, TookBusy, TookGone, line_steps, made_steps};
ghost use Rattle.entry_lock.specs.PassChanges.{MadeNothing, MadeReceipt, TellsLastStep, FindsGone, TookAtMost};

use crate::access_steps::bound_shares;
use crate::accesses::try_access;
use crate::busy::Busy;
use crate::calls::try_call;
use crate::line_accesses::try_line;
use crate::pause::{NoPause, Pause};
use crate::plays::{JoinIn, SplitOff};
use crate::table::{LockTable, Pass};
use entry_model::{Line, Op, Receipt};

impl Pass {
    /// How many shares it has.
    pub fn shares(&self) -> u32
        ensures count { result ≡ self.now.shares }
        ensures numbers { result ≡ length (view_of self.now).numbers }
    {
        self.shares
    }

    /// As `try_apply`, with a pause for tests: no clause says that it is called.
    #[inline(always)]
    pub fn try_with<P: Pause>(
        &mut self,
        table: &LockTable,
        entry: u32,
        op: Op,
        pause: &P,
    ) -> Result<Receipt, Busy>
        requires table { IsOf table.now self.old }
        requires in_table { entry < entry_count table.now.order }
        ensures table { IsOf table.now self.new }
        ensures shares { self.new.shares ≡ self.old.shares }
        ensures receipt { IfOk result (λ r. IsReceiptOf entry op r) }
        ensures made { IfOk result (λ r. MadeReceipt (view_of self.old) (view_of self.new) r) }
        ensures same { IfErr result (λ b. MadeNothing (view_of self.old) (view_of self.new)) }
        ensures last { IfErr result
            (λ b. TellsLastStep (view_of self.old) (view_of self.new) entry b) }
        ensures cause { IfErr result
            (λ b. MatchBool (is_access op) (IsChanging b) (IsHeldElsewhere b)) }
        ensures alone { self.old.shares ≡ table.now.passes → IsOk result }
        ensures once { TookAtMost
            (if is_access op then 2 else 1) (view_of self.old) (view_of self.new) }
        ensures steps { IfOk result
            (λ r. Took (made_steps entry op r) (view_of self.old) (view_of self.new)) }
        ensures busy { IfErr result
            (λ b. TookBusy entry op b (view_of self.old) (view_of self.new)) }
    {
        if op.is_access() {
            try_access(&table.table.shared, &mut self.seat, entry, op)
        } else {
            try_call(&table.table.shared, &mut self.seat, entry, op, pause)
        }
    }

    /// Tries an operation once. It neither waits nor takes memory.
    ///
    /// # Errors
    /// Busy where another pass was at the entry: it held the lock, or, for an access, it was
    /// changing the control word. Then nothing was made. A pass with all shares is never busy.
    #[inline(always)]
    pub fn try_apply(&mut self, table: &LockTable, entry: u32, op: Op) -> Result<Receipt, Busy>
        requires table { IsOf table.now self.old }
        requires in_table { entry < entry_count table.now.order }
        ensures table { IsOf table.now self.new }
        ensures shares { self.new.shares ≡ self.old.shares }
        ensures receipt { IfOk result (λ r. IsReceiptOf entry op r) }
        ensures made { IfOk result (λ r. MadeReceipt (view_of self.old) (view_of self.new) r) }
        ensures same { IfErr result (λ b. MadeNothing (view_of self.old) (view_of self.new)) }
        ensures last { IfErr result
            (λ b. TellsLastStep (view_of self.old) (view_of self.new) entry b) }
        ensures cause { IfErr result
            (λ b. MatchBool (is_access op) (IsChanging b) (IsHeldElsewhere b)) }
        ensures alone { self.old.shares ≡ table.now.passes → IsOk result }
        ensures once { TookAtMost
            (if is_access op then 2 else 1) (view_of self.old) (view_of self.new) }
        ensures steps { IfOk result
            (λ r. Took (made_steps entry op r) (view_of self.old) (view_of self.new)) }
        ensures busy { IfErr result
            (λ b. TookBusy entry op b (view_of self.old) (view_of self.new)) }
    {
        self.try_with(table, entry, op, &NoPause)
    }

    /// Tries an access by a line that the pass has seen. `None` where the entry is gone from the
    /// line's stamp; the line is then gone for this pass.
    ///
    /// # Errors
    /// Busy where another pass changed the control word before the mark, and the entry is still at
    /// the line's stamp. Then nothing was made.
    #[inline(always)]
    pub fn try_known(
        &mut self,
        table: &LockTable,
        known: &Line,
        op: Op,
    ) -> Result<Option<Receipt>, Busy>
        requires table { IsOf table.now self.old }
        requires in_table { known.now.entry < entry_count table.now.order }
        requires seen { IsSeen (view_of self.old).actor.lines table.now.opening.items known.now }
        requires access { IsAccessOf known.now op }
        ensures table { IsOf table.now self.new }
        ensures shares { self.new.shares ≡ self.old.shares }
        ensures receipt { IfOk result (λ o. IfSome o (λ r. IsReceiptOf known.now.entry op r)) }
        ensures current { IfOk result (λ o. IfSome o (λ r. IsCurrent known.now r.before)) }
        ensures made { IfOk result
            (λ o. IfSome o (λ r. MadeReceipt (view_of self.old) (view_of self.new) r)) }
        ensures gone { IfOk result
            (λ o. IfNone o (FindsGone (view_of self.old) (view_of self.new) known.now)) }
        ensures same { IfErr result (λ b. MadeNothing (view_of self.old) (view_of self.new)) }
        ensures last { IfErr result
            (λ b. TellsLastStep (view_of self.old) (view_of self.new) known.now.entry b) }
        ensures cause { IfErr result (λ b. IsMissedMark b known.now) }
        ensures alone { self.old.shares ≡ table.now.passes → IsOk result }
        ensures once { TookAtMost 2 (view_of self.old) (view_of self.new) }
        ensures steps { IfOk result
            (λ o. IfSome o
            (λ r. Took
            (line_steps known.now.entry op r) (view_of self.old) (view_of self.new))) }
        ensures gone_steps { IfOk result
            (λ o. IfNone o
            (TookGone known.now.entry op (view_of self.old) (view_of self.new))) }
        ensures busy { IfErr result
            (λ b. Took
            (Look known.now.entry op ∷ Mark ∷ []) (view_of self.old) (view_of self.new)) }
    {
        try_line(&table.table.shared, &mut self.seat, known, op)
    }

    /// A new pass with one of this one's shares. It has made nothing, and has seen what this one
    /// has. It takes no memory.
    pub fn split(&mut self, table: &LockTable) -> Pass
        requires table { IsOf table.now self.old }
        requires two { 2 ≤ self.old.shares }
        ensures table { IsOf table.now self.new }
        ensures other_table { IsOf table.now result }
        ensures shares { self.new.shares + 1 ≡ self.old.shares }
        ensures one { result.shares ≡ 1 }
        ensures actor { (view_of self.new).actor ≡ (view_of self.old).actor }
        ensures fronts { (view_of self.new).fronts ≡ (view_of self.old).fronts }
        ensures step { Took
            (SplitStep (second_number (view_of self.old).numbers) ∷ [])
            (view_of self.old)
            (view_of self.new) }
        ensures fresh { (view_of result).actor.receipts ≡ [] }
        ensures no_step { (view_of result).taken ≡ [] }
        ensures seen { (view_of result).actor.lines ≡ (view_of self.old).actor.lines }
        ensures same_fronts { (view_of result).fronts ≡ (view_of self.old).fronts }
    {
        let seat = table.table.shared.split_seat::<SplitOff>(&mut self.seat);
        self.shares -= 1;
        Pass { seat, shares: 1 }
    }

    /// Takes in another pass: its shares, its receipts after this one's, and what it has seen and
    /// found gone. It takes no memory.
    pub fn join(&mut self, table: &LockTable, other: Pass)
        requires table { IsOf table.now self.old }
        requires other_table { IsOf table.now other }
        ensures table { IsOf table.now self.new }
        ensures shares { self.new.shares ≡ self.old.shares + other.shares }
        ensures receipts { (view_of self.new).actor.receipts
            ≡ (view_of self.old).actor.receipts ++ (view_of other).actor.receipts }
        ensures seen { (view_of self.new).actor.lines
            ≡ (view_of self.old).actor.lines ++ (view_of other).actor.lines }
        ensures fronts { (view_of self.new).fronts
            ≡ larger (view_of self.old).fronts (view_of other).fronts }
        ensures gone { (cached : LineOf)
            → IsGone (view_of self.old).fronts cached ⊎ IsGone (view_of other).fronts cached
            → IsGone (view_of self.new).fronts cached }
        ensures step { Took
            (JoinStep (first_number (view_of other).numbers) ∷ [])
            (view_of self.old)
            (view_of self.new) }
        ensures count { (view_of self.new).count ≡ (view_of self.old).count }
        ensures last { (view_of self.new).last ≡ (view_of self.old).last }
        ensures looked { (view_of self.new).looked ≡ (view_of self.old).looked }
        ensures found { (view_of self.new).found ≡ (view_of self.old).found }
    {
        let Pass { seat, shares } = other;
        table.table.shared.join_seat::<JoinIn>(&mut self.seat, seat);
        // A join shows the pass nothing. This look shows that the shares are no more than there
        // are, so that their sum fits.
        bound_shares(&table.table.shared, &mut self.seat);
        self.shares += shares;
    }
}
