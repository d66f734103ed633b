//! The input and the answer of `set`: partitions whose page tables share one pool, and the replies
//! of their run.
ghost use Rattle.std.specs.Prelude.{◌≡◌, ◌≢◌, IfOk, Err};
ghost use Rattle.papr_edge.specs.Answer.{IsAnswer};
ghost use Rattle.papr_edge.specs.Ends.{WithDone};
ghost use Rattle.papr_top.specs.Sets.{IsSetText};

use lpar_set::{SetTrace, parse_set, set_to_text};
use papr_edge::{Answer, Input, NoInput};
use std::alloc::{AllocError, Global};
use std::marker::Model;

/// A set of partitions, as `set` reads it.
#[derive(Drop)]
pub struct SetInput {
    set: SetTrace,
}

impl Model for SetInput {
    ghost use Rattle.lpar_set.specs.SetTrace.{AcceptedSet};

    ghost Value = { AcceptedSet };

    ghost view = { λ input. input.set };
}

impl Input for SetInput {
    ghost use Rattle.papr_top.specs.Sets.{set_input};
    ghost use Rattle.papr_top.specs.InputLaws.{long_set};

    ghost reads = { set_input };

    fn parse(alloc: Global, bytes: &[u8]) -> Result<Self, NoInput> {
        let set = parse_set(alloc, bytes)?;
        Ok(SetInput { set })
    }

    ghost refuses_long = { long_set };
}

/// The text of the run of a set.
pub fn set_answer(alloc: Global, input: &SetInput) -> Result<Answer, AllocError>
    ensures { IfOk result (λ answer. IsAnswer (WithDone IsSetText) input.now answer) }
{
    let text = set_to_text(alloc, &input.set)?;
    Ok(Answer::Done(text))
}
