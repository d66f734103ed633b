//! A mark, which is the part of a receipt that a reply's line shows, and lists of up to 16 marks.
ghost use Rattle.std.specs.Prelude.{◌≡◌, ◌<◌, ◌≤◌, ◌++◌, [], ◌∷◌, length};

use arrayvec::ArrayVec;
use entry_model::Answer;
use std::marker::Model;

/// What the text of a reply shows of one receipt.
#[derive(Clone, Copy, PartialEq, Eq, Debug)]
pub struct Mark {
    /// The entry's index.
    pub entry: u32,
    /// The entry's stamp before the operation.
    pub stamp: u32,
    /// R and C before the operation: 2 for R, plus 1 for C.
    pub bits: u8,
    /// What the entry answered.
    pub answer: Answer,
}

/// The marks of one line, at most 16, in their order.
#[derive(Drop)]
pub struct Marks {
    items: ArrayVec<Mark, 16>,
}

impl Model for Marks {
    ghost use Rattle.std.specs.Prelude.{List};
    ghost use Rattle.receipt_text.specs.declared.mark.Mark.{Mark};

    ghost Value = { List Mark };

    ghost view = { λ m. m.items.items };
}

impl Marks {
    pub fn new() -> Self
        ensures { result ≡ [] }
    {
        Marks {
            items: ArrayVec::new(),
        }
    }

    /// Appends a mark.
    pub fn push(&mut self, mark: Mark)
        requires { length self.old < 16 }
        ensures { self.new ≡ self.old ++ mark ∷ [] }
    {
        self.items.push(mark);
    }

    pub fn as_slice(&self) -> &[Mark]
        ensures value { result.now ≡ self.now }
        ensures short { length result.now ≤ 16 }
    {
        self.items.as_slice()
    }
}

/// What a list of marks holds past its end.
impl Default for Mark {
    ghost use Rattle.entry_model.specs.declared.operation.Answer.TheVariants.{Words};

    ghost is_default = { λ m. m ≡ record { entry = 0; stamp = 0; bits = 0; answer = Words } };

    fn default() -> Self {
        Mark {
            entry: 0,
            stamp: 0,
            bits: 0,
            answer: Answer::Words,
        }
    }
}
