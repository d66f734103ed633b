//! What is kept of the replies of a parallel run.
ghost use Rattle.std.specs.Prelude.{◌≡◌, ℕ, ◌<◌, ◌≤◌, ◌+◌, ◌++◌, List, [], ◌∷◌, false, IfOk, OnOk};
ghost use Rattle.trace_line.specs.declared.line.TraceLine.{TraceLine as LineOf};
ghost use Rattle.trace_line.specs.Lines.{is_quiet};
ghost use Rattle.trace_reply.specs.declared.reply.Reply.{Reply};
ghost use Rattle.trace_reply.specs.Replies.{IsOfKind};
ghost use Rattle.trace_reply.specs.Slots.{reply_in};

use std::alloc::{AllocError, Global};
use trace_line::TraceLine;
use trace_reply::ReplySlot;

/// What a worker keeps of the replies to its lines, in room that was made before.
pub trait ReplyLog {
    /// It keeps just these replies to these lines, in this order.
    ghost keeps: { Self → List LineOf → List Reply → Type 0 };

    /// How many further replies it has room for.
    ghost room: { Self → ℕ };

    /// Keeps the reply that is in the slot as the last one. It can't fail. What is in the slot then
    /// is left open.
    fn keep(&mut self, line: &TraceLine, slot: &mut ReplySlot)
        requires room { 0 < room self.old }
        requires kind { IsOfKind line.now.act (reply_in slot.old) }
        requires not_quiet { is_quiet line.now.act ≡ false }
        ensures kept { (ls : List LineOf) (rs : List Reply)
            → keeps self.old ls rs
            → keeps self.new (ls ++ line.now ∷ []) (rs ++ reply_in slot.old ∷ []) }
        ensures room { room self.old ≤ 1 + room self.new };
}

/// A log whose replies can be put into the order of a whole run.
pub trait RunLog: ReplyLog + Send + Drop {
    /// What a run gives.
    type Output: Drop;

    /// The output has just these replies to these lines.
    ghost has: { Self.Output → List LineOf → List Reply → Type 0 };

    /// A log with room for the replies to so many lines.
    fn with_room(alloc: Global, lines: usize) -> Result<Self, AllocError>
        ensures none { IfOk result (λ log. Self.keeps log [] []) }
        ensures room { IfOk result (λ log. lines ≤ Self.room log) };

    /// The output of a run before its first line, of so many lines.
    fn output(alloc: Global, lines: usize) -> Result<Self::Output, AllocError>
        ensures { IfOk result (λ output. has output [] []) };

    /// Puts the reply that is in the slot at the end of the output.
    fn put(
        output: &mut Self::Output,
        line: &TraceLine,
        slot: &mut ReplySlot,
    ) -> Result<(), AllocError>
        ensures { OnOk
            result
            ((ls : List LineOf) (rs : List Reply)
            → has output.old ls rs
            → has output.new (ls ++ line.now ∷ []) (rs ++ reply_in slot.old ∷ [])) };

    /// Moves the first reply to the end of the output.
    fn move_first(&mut self, output: &mut Self::Output) -> Result<(), AllocError>
        requires some { (l : LineOf)
            × (r : Reply)
            × (ls : List LineOf)
            × (rs : List Reply)
            × Self.keeps self.old (l ∷ ls) (r ∷ rs) }
        ensures left { OnOk
            result
            ((l : LineOf) (r : Reply) (ls : List LineOf) (rs : List Reply)
            → Self.keeps self.old (l ∷ ls) (r ∷ rs)
            → Self.keeps self.new ls rs) }
        ensures moved { OnOk
            result
            ((l : LineOf) (r : Reply) (ls : List LineOf) (rs : List Reply)
            (ks : List LineOf) (qs : List Reply)
            → Self.keeps self.old (l ∷ ls) (r ∷ rs)
            → has output.old ks qs
            → has output.new (ks ++ l ∷ []) (qs ++ r ∷ [])) };
}
