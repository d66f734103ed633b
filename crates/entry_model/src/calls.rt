//! What a trial asks of a hypervisor call: its operations on entries, in order, and the answers
//! after which it goes on.
ghost use Rattle.std.specs.Prelude.{◌≡◌, ◌≤◌, Bool, List, length};
ghost use Rattle.entry_model.specs.declared.operation.Answer.{Answer};
ghost use Rattle.entry_model.specs.Trial.{Call};
ghost use Rattle.entry_model.specs.Calls as lists;

use crate::operation::{Answer, Op};

/// Calls on entries that a trial makes in turn.
pub trait CallList {
    /// The calls, in order.
    ghost calls: { Self → List Call };

    /// After which answers the next of them is made.
    ghost goes_on: { Self → Answer → Bool };

    /// The entry and the operation of the call that comes after the first `made`, if there is one.
    fn call_at(&self, made: u32) -> Option<(u32, Op)>
        requires { made ≤ length (calls self.now) }
        ensures { result ≡ lists.call_at (calls self.now) made };

    /// Whether the next call is made after this answer.
    fn goes_on_after(&self, answer: Answer) -> bool
        ensures { result ≡ goes_on self.now answer };
}
