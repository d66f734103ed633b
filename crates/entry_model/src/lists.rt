//! Lists of bounded length that need no allocator: at most 16 receipts of a call, and at most 8
//! words of its reply.
ghost use Rattle.std.specs.Prelude.{◌≡◌, ◌<◌, ◌≤◌, ◌++◌, [], ◌∷◌, length};
ghost use Rattle.entry_model.specs.Receipt.{blank_receipt};

use crate::operation::{Answer, Op};
use crate::receipt::Receipt;
use crate::state::EntryState;
use arrayvec::ArrayVec;
use std::marker::Model;

/// What a list of receipts holds past its end.
impl Default for Receipt {
    ghost is_default = { λ receipt. receipt ≡ blank_receipt };

    fn default() -> Self {
        Receipt {
            entry: 0,
            before: EntryState::empty(0),
            op: Op::Read,
            answer: Answer::Words,
        }
    }
}

/// The receipts of one call, at most 16, in the order of their making.
#[derive(Drop)]
pub struct Receipts {
    items: ArrayVec<Receipt, 16>,
}

impl Model for Receipts {
    ghost use Rattle.std.specs.Prelude.{List};
    ghost use Rattle.entry_model.specs.declared.receipt.Receipt.{Receipt};

    ghost Value = { List Receipt };

    ghost view = { λ r. r.items.items };
}

impl Receipts {
    pub fn new() -> Self
        ensures { result ≡ [] }
    {
        Receipts {
            items: ArrayVec::new(),
        }
    }

    /// Takes all receipts out, so that the list can serve for the next call.
    pub fn clear(&mut self)
        ensures { self.new ≡ [] }
    {
        self.items.clear();
    }

    /// Appends a receipt.
    pub fn push(&mut self, receipt: Receipt)
        requires { length self.old < 16 }
        ensures { self.new ≡ self.old ++ receipt ∷ [] }
    {
        self.items.push(receipt);
    }

    pub fn as_slice(&self) -> &[Receipt]
        ensures value { result.now ≡ self.now }
        ensures short { length result.now ≤ 16 }
    {
        self.items.as_slice()
    }
}

/// The words of a reply, at most 8: register 4 and those after it.
#[derive(Drop)]
pub struct ReplyWords {
    items: ArrayVec<u64, 8>,
}

impl Model for ReplyWords {
    ghost use Rattle.std.specs.Prelude.{List, ℕ};

    ghost Value = { List ℕ };

    ghost view = { λ w. w.items.items };
}

impl ReplyWords {
    pub fn new() -> Self
        ensures { result ≡ [] }
    {
        ReplyWords {
            items: ArrayVec::new(),
        }
    }

    /// Appends a word.
    pub fn push(&mut self, word: u64)
        requires { length self.old < 8 }
        ensures { self.new ≡ self.old ++ word ∷ [] }
    {
        self.items.push(word);
    }

    pub fn as_slice(&self) -> &[u64]
        ensures value { result.now ≡ self.now }
        ensures short { length result.now ≤ 8 }
    {
        self.items.as_slice()
    }
}
