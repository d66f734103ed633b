//! Steps sorted by place and made one after the other on the entry states, with the state that each
//! found.
ghost use Rattle.std.specs.Prelude.{◌≡◌, length, map, IfOk, OnOk};
ghost use Rattle.std.specs.List.{AllByRecursion};
ghost use Rattle.history_check.specs.OrderedSteps.{IsOrder, IsStepOf, AreWritten, numbered_by, found_in_order, ending_in_order};

use crate::mark_steps::LineStep;
use crate::steps::{may_change, next_state};
use entry_model::EntryState;
use std::alloc::{AllocError, Global};
use trace_line::TraceLine;

/// The steps in an order of their places.
pub fn in_order(steps: Vec<LineStep>) -> Vec<LineStep>
    ensures { IsOrder steps.items result.items }
{
    let mut order = steps;
    order.sort_unstable_by_key(|step: &LineStep| step.place);
    order
}

/// Makes the steps of these lines in this order, and gives the state that each found, at its index.
pub fn make_steps(
    alloc: Global,
    states: &mut Vec<EntryState>,
    lines: &[TraceLine],
    order: &[LineStep],
) -> Result<Vec<EntryState>, AllocError>
    requires { AllByRecursion
        (IsStepOf (length states.old.items) (length lines.now) (length order.now))
        order.now }
    ensures found { IfOk
        result
        (λ found.
        AreWritten
        (length order.now)
        (found_in_order states.old.items (map (numbered_by lines.now) order.now))
        found.items) }
    ensures ending { OnOk
        result
        (states.new.items
        ≡ ending_in_order states.old.items (map (numbered_by lines.now) order.now)) }
    ensures size { length states.new.items ≡ length states.old.items }
{
    let mut found = vec![in alloc; EntryState::empty(0); order.len()]?;
    for step in order {
        let line = &lines[step.line as usize];
        let entry = step.entry as usize;
        let state = states[entry];
        found[step.index as usize] = state;
        if may_change(step.answer) {
            states[entry] = next_state(&line.act, step.answer, &state);
        }
    }
    Ok(found)
}
