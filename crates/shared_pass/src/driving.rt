//! Tries of hypervisor calls and walks by a pass at work: one that finds an entry busy becomes what
//! the pass has to go on with.
ghost use Rattle.std.specs.Prelude.{◌≡◌, ◌++◌, IfOk, IfErr, IsOk};
ghost use Rattle.std.specs.Arc.{arc_value};
ghost use Rattle.entry_model.specs.Receipt.{is_no_match, found_of};
ghost use Rattle.entry_model.specs.Replies.{reply_with};
ghost use Rattle.entry_model.specs.Trial.{IsReplyOf, IsTrial, receipts_added};
ghost use Rattle.entry_model.specs.Begun.{IsBegun, IsBegunTrial};
ghost use Rattle.call_plan.specs.Plans.{plan_of, Fits};
ghost use Rattle.shared_pass.specs.declared.held.Pending.TheVariants.{Nothing, Call, Walk};
ghost use Rattle.shared_pass.specs.Held.{plan_of_held};
ghost use Rattle.shared_pass.specs.Walks.{calls_of_walk};
ghost use Rattle.shared_pass.specs.Workings.{IsMade};
ghost use Rattle.shared_pass.specs.Attempts.{KeepsCall, KeepsWalk};

use crate::held::{HeldCall, Pending};
use crate::walk::PageWalk;
use crate::working::Working;
use call_plan::CallPlan;
use entry_lock::Busy;
use entry_model::{Receipt, Registers};
use pass_calls::{try_calls, try_plan};

impl Working {
    /// Makes the rest of a hypervisor call of which its receipts were made.
    ///
    /// # Errors
    /// Busy where another pass was at the next entry. The call is then what it has to go on with.
    #[inline(always)]
    fn attempt(&mut self, plan: &CallPlan) -> Result<Registers, Busy>
        requires fits { Fits (arc_value self.old.sharer.table).order plan.now }
        requires begun { IsBegun (plan_of plan.now) self.old.receipts }
        ensures behind { self.new.receipts
            ≡ self.old.receipts ++ receipts_added self.old.receipts self.new.receipts }
        ensures made { IsMade
            self.old
            self.new
            (receipts_added self.old.receipts self.new.receipts) }
        ensures reply { IfOk result
            (λ registers. IsReplyOf
            (plan_of plan.now)
            (reply_with registers self.new.receipts)) }
        ensures ended { IfOk result (λ registers. self.new.pending ≡ Nothing) }
        ensures kept { IfErr result
            (λ busy. KeepsCall (plan_of plan.now) self.old.sharer self.new busy) }
        ensures alone { self.old.sharer.pass.shares ≡ (arc_value self.old.sharer.table).passes
            → IsOk result }
    {
        match try_plan(&mut self.sharer, plan, &mut self.receipts) {
            Ok(registers) => {
                self.pending = Pending::Nothing;
                Ok(registers)
            }
            Err(busy) => {
                self.pending = Pending::Call {
                    call: HeldCall::of(plan),
                };
                self.busy = busy;
                Err(busy)
            }
        }
    }

    /// Makes a hypervisor call.
    ///
    /// # Errors
    /// Busy where another pass was at the next entry. The call is then what it has to go on with.
    #[inline(always)]
    pub fn begin(&mut self, plan: &CallPlan) -> Result<Registers, Busy>
        requires free { self.old.pending ≡ Nothing }
        requires fits { Fits (arc_value self.old.sharer.table).order plan.now }
        ensures made { IsMade self.old self.new self.new.receipts }
        ensures reply { IfOk result
            (λ registers. IsReplyOf
            (plan_of plan.now)
            (reply_with registers self.new.receipts)) }
        ensures ended { IfOk result (λ registers. self.new.pending ≡ Nothing) }
        ensures kept { IfErr result
            (λ busy. KeepsCall (plan_of plan.now) self.old.sharer self.new busy) }
        ensures alone { self.old.sharer.pass.shares ≡ (arc_value self.old.sharer.table).passes
            → IsOk result }
    {
        self.receipts.clear();
        self.attempt(plan)
    }

    /// Goes on with the hypervisor call that was held up. At the end the reply is the one of the
    /// whole call.
    ///
    /// # Errors
    /// Busy where another pass was at the next entry. The call is still what it has to go on with.
    pub fn again(&mut self, call: HeldCall) -> Result<Registers, Busy>
        requires { self.old.pending ≡ Call call }
        ensures behind { self.new.receipts
            ≡ self.old.receipts ++ receipts_added self.old.receipts self.new.receipts }
        ensures made { IsMade
            self.old
            self.new
            (receipts_added self.old.receipts self.new.receipts) }
        ensures reply { IfOk result
            (λ registers. IsReplyOf
            (plan_of_held call)
            (reply_with registers self.new.receipts)) }
        ensures ended { IfOk result (λ registers. self.new.pending ≡ Nothing) }
        ensures kept { IfErr result
            (λ busy. KeepsCall (plan_of_held call) self.old.sharer self.new busy) }
        ensures alone { self.old.sharer.pass.shares ≡ (arc_value self.old.sharer.table).passes
            → IsOk result }
    {
        self.attempt(&call.plan())
    }

    /// Makes the rest of a walk of which its receipts were made. Gives back the receipt of the
    /// entry that translates the page, if there is one.
    ///
    /// # Errors
    /// Busy where another pass changed the next entry. The walk is then what it has to go on with.
    #[inline(always)]
    fn attempt_walk(&mut self, walk: &PageWalk) -> Result<Option<Receipt>, Busy>
        requires { let order = (arc_value self.old.sharer.table).order in
            IsBegunTrial is_no_match (calls_of_walk order walk.now) self.old.receipts }
        ensures behind { self.new.receipts
            ≡ self.old.receipts ++ receipts_added self.old.receipts self.new.receipts }
        ensures made { IsMade
            self.old
            self.new
            (receipts_added self.old.receipts self.new.receipts) }
        ensures trial { let order = (arc_value self.old.sharer.table).order in
            IfOk result
            (λ found. IsTrial is_no_match (calls_of_walk order walk.now) self.new.receipts) }
        ensures found { IfOk result (λ found. found ≡ found_of self.new.receipts) }
        ensures ended { IfOk result (λ found. self.new.pending ≡ Nothing) }
        ensures kept { let order = (arc_value self.old.sharer.table).order in
            IfErr result (λ busy. KeepsWalk order walk.now self.old.sharer self.new busy) }
        ensures alone { self.old.sharer.pass.shares ≡ (arc_value self.old.sharer.table).passes
            → IsOk result }
    {
        let calls = walk.calls(self.sharer.order());
        match try_calls(&mut self.sharer, &calls, &mut self.receipts) {
            Ok(found) => {
                self.pending = Pending::Nothing;
                Ok(found)
            }
            Err(busy) => {
                self.pending = Pending::Walk { walk: *walk };
                self.busy = busy;
                Err(busy)
            }
        }
    }

    /// Makes a walk. Gives back the receipt of the entry that translates the page, if there is one.
    ///
    /// # Errors
    /// Busy where another pass changed the next entry. The walk is then what it has to go on with.
    #[inline(always)]
    pub fn begin_walk(&mut self, walk: &PageWalk) -> Result<Option<Receipt>, Busy>
        requires { self.old.pending ≡ Nothing }
        ensures made { IsMade self.old self.new self.new.receipts }
        ensures trial { let order = (arc_value self.old.sharer.table).order in
            IfOk result
            (λ found. IsTrial is_no_match (calls_of_walk order walk.now) self.new.receipts) }
        ensures found { IfOk result (λ found. found ≡ found_of self.new.receipts) }
        ensures ended { IfOk result (λ found. self.new.pending ≡ Nothing) }
        ensures kept { let order = (arc_value self.old.sharer.table).order in
            IfErr result (λ busy. KeepsWalk order walk.now self.old.sharer self.new busy) }
        ensures alone { self.old.sharer.pass.shares ≡ (arc_value self.old.sharer.table).passes
            → IsOk result }
    {
        self.receipts.clear();
        self.attempt_walk(walk)
    }

    /// Goes on with the walk that was held up. At the end the receipts are those of the whole walk.
    ///
    /// # Errors
    /// Busy where another pass changed the next entry. The walk is still what it has to go on with.
    pub fn walk_again(&mut self, walk: &PageWalk) -> Result<Option<Receipt>, Busy>
        requires { self.old.pending ≡ Walk walk.now }
        ensures behind { self.new.receipts
            ≡ self.old.receipts ++ receipts_added self.old.receipts self.new.receipts }
        ensures made { IsMade
            self.old
            self.new
            (receipts_added self.old.receipts self.new.receipts) }
        ensures trial { let order = (arc_value self.old.sharer.table).order in
            IfOk result
            (λ found. IsTrial is_no_match (calls_of_walk order walk.now) self.new.receipts) }
        ensures found { IfOk result (λ found. found ≡ found_of self.new.receipts) }
        ensures ended { IfOk result (λ found. self.new.pending ≡ Nothing) }
        ensures kept { let order = (arc_value self.old.sharer.table).order in
            IfErr result (λ busy. KeepsWalk order walk.now self.old.sharer self.new busy) }
        ensures alone { self.old.sharer.pass.shares ≡ (arc_value self.old.sharer.table).passes
            → IsOk result }
    {
        self.attempt_walk(walk)
    }
}
