//! What is known of an operation from its line and its answer alone, and the entry state that it
//! leaves.
ghost use Rattle.std.specs.Prelude.{◌≡◌, ◌||◌, true};
ghost use Rattle.entry_model.specs.Receipt.{is_at, is_change};
ghost use Rattle.entry_model.specs.Reply.{touched_state};
ghost use Rattle.history_check.specs.Steps as steps_of;
ghost use Rattle.history_check.specs.PlacedSteps as placed_of;

use authority_mask::Masks;
use dma_window::entering;
use entry_model::{Answer, EntryState, NO_TEST, Op, reply};
use hpte_fields::normal;
use papr_codes::Hcall;
use storage_prot::Want;
use trace_line::Act;

/// What is kept of each operation by which this TCE is put: the answer shows whether it emptied the
/// entry or was to enter the TCE there.
fn tce_op(tce: u64, answer: Answer) -> Op
    ensures { result ≡ placed_of.tce_op tce answer }
{
    match answer {
        Answer::Entered | Answer::Taken => entering(tce),
        _ => Op::Remove { test: NO_TEST },
    }
}

/// What is kept of each operation of a hypervisor call with these arguments that was answered so.
fn call_op(hcall: Hcall, args: &[u64; 8], answer: Answer) -> Op
    ensures { result ≡ placed_of.call_op hcall args.now answer }
{
    match hcall {
        Hcall::Enter => match normal(args[2], args[3]) {
            Some((dword0, dword1)) => Op::Enter { dword0, dword1 },
            None => Op::Read,
        },
        Hcall::Remove | Hcall::BulkRemove => Op::Remove { test: NO_TEST },
        Hcall::Protect => Op::Protect {
            test: NO_TEST,
            flags: args[0],
        },
        Hcall::ClearRef => Op::ClearRef,
        Hcall::ClearMod => Op::ClearMod,
        Hcall::PutTce => tce_op(args[2], answer),
        _ => Op::Read,
    }
}

/// What is kept of each operation of a line that was answered so: its test, and the segment and the
/// masks of an access, are not.
fn act_op(act: &Act, answer: Answer) -> Op
    ensures { result ≡ placed_of.act_op act.now answer }
{
    match act {
        Act::Call { number, args, .. } => call_op(Hcall::of_number(*number), args, answer),
        Act::Access { want, .. } => Op::Access {
            tag: 0,
            base: 0,
            key: false,
            no_execute: false,
            want: *want,
            masks: Masks::default(),
        },
        _ => Op::Read,
    }
}

/// What is kept of each operation of a line that was answered so: a read where the stamp was at its
/// last value, since nothing changed then.
fn line_op(act: &Act, answer: Answer) -> Op
    ensures { result ≡ placed_of.line_op act.now answer }
{
    if matches!(answer, Answer::Worn) {
        return Op::Read;
    }
    act_op(act, answer)
}

/// The state after an access that is allowed on it.
fn touched(state: &EntryState, want: Want) -> EntryState
    requires { state.now.valid ≡ true }
    ensures { result ≡ touched_state state.now want }
{
    let mut next = *state;
    next.referenced = true;
    next.changed = state.changed || matches!(want, Want::Store);
    next
}

/// The state after an operation of which this is kept, and which was answered so on this state.
#[tactic(auto, unfolding(crate::specs::Steps::next_by))]
fn state_after(op: &Op, answer: Answer, state: &EntryState) -> EntryState
    ensures { result ≡ steps_of.next_by op.now answer state.now }
{
    match op {
        Op::Access { want, .. } => {
            if matches!(answer, Answer::At) && state.valid {
                touched(state, *want)
            } else {
                *state
            }
        }
        _ => {
            if answer.is_change() {
                reply(state, op).1
            } else {
                *state
            }
        }
    }
}

/// Whether an operation that was answered so may have changed its entry.
pub fn may_change(answer: Answer) -> bool
    ensures { result ≡ (is_change answer || is_at answer) }
{
    matches!(
        answer,
        Answer::Entered | Answer::Removed | Answer::Protected | Answer::Was | Answer::At
    )
}

/// The state after an operation of a line, which was answered so on this state.
pub fn next_state(act: &Act, answer: Answer, state: &EntryState) -> EntryState
    ensures { result ≡ steps_of.next_by (placed_of.line_op act.now answer) answer state.now }
{
    if may_change(answer) {
        state_after(&line_op(act, answer), answer, state)
    } else {
        *state
    }
}
