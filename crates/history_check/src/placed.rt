//! From places to states: a section's steps, sorted and made again, give the entry state that each
//! operation found.
ghost use Rattle.std.specs.Prelude.{◌≡◌, List, length, map, IfOk};
ghost use Rattle.std.specs.List.{AllByRecursion};
ghost use Rattle.history_check.specs.OrderedSteps.{IsStepOf, numbered, numbered_by};
ghost use Rattle.history_check.specs.PlacedSteps.{PlacedStep, FindStates};

use crate::mark_steps::LineStep;
use crate::ordering::{in_order, make_steps};
use entry_model::EntryState;
use std::alloc::{AllocError, Global};
use trace_line::TraceLine;

/// Makes the steps of these lines in an order of their places, as if nobody else were at the table.
/// Gives the state that each step found, at the step's index, and leaves the states on which they
/// end.
pub fn find_states(
    alloc: Global,
    states: &mut Vec<EntryState>,
    lines: &[TraceLine],
    steps: Vec<LineStep>,
) -> Result<Vec<EntryState>, AllocError>
    requires { AllByRecursion
        (IsStepOf (length states.old.items) (length lines.now) (length steps.items))
        steps.items }
    ensures found { IfOk
        result
        (λ found.
        (xs : List PlacedStep)
        → map (numbered_by lines.now) steps.items ≡ numbered 0 xs
        → FindStates states.old.items xs found.items states.new.items) }
    ensures size { length states.new.items ≡ length states.old.items }
{
    let order = in_order(steps);
    let found = make_steps(alloc, states, lines, order.as_slice())?;
    Ok(found)
}
