//! One line judged: its reply fits the text, a cached translation that it found gone is outdated
//! when the section closes, and its receipts keep the fronts.
ghost use Rattle.std.specs.Prelude.{◌≡◌, ◌<◌, true, false, IfOk, IfSome};
ghost use Rattle.entry_model.specs.Run.{state_at};
ghost use Rattle.trace_line.specs.Lines.{is_quiet};
ghost use Rattle.history_check.specs.FrontKeeping.{front_of};
ghost use Rattle.history_check.specs.JudgedLines.{TellsReply};

use crate::context::Context;
use crate::fitting::receipts_of;
use crate::fronts::{Fronts, keep_fronts};
use crate::line_reply::line_reply;
use crate::processor::{after_line, gone_line_of};
use entry_model::{EntryState, Line};
use std::alloc::AllocError;
use trace_line::TraceLine;
use trace_reply::ReplySlot;
use vcpu::Cpu;

/// Whether the entry of a cached translation that was gone, if there was one, has left the line's
/// stamp in these states.
fn has_left(closing: &[EntryState], gone: &Option<Line>) -> bool
    ensures yes { result ≡ true
        → IfSome gone.now (λ line. line.stamp < (state_at closing.now line.entry).stamp) }
    ensures no { result ≡ false
        → IfSome gone.now (λ line. line.stamp < (state_at closing.now line.entry).stamp)
        → ⊥ }
{
    match gone {
        None => true,
        Some(line) => match closing.get(line.entry as usize) {
            None => false,
            Some(state) => line.stamp < state.stamp,
        },
    }
}

/// Judges a line that isn't quiet by the states that its operations found, on a section that opened
/// on states with these pairs and closes on these states. Gives how many bytes of the given text
/// its reply has, and leaves its processor and the processor's fronts as they are after it. `None`
/// if no good reply of the line is at the beginning of the given text. `out` is room to write in,
/// and `slot` is for the reply.
pub fn judge_line(
    context: &Context,
    opening: &[u64],
    closing: &[EntryState],
    processor: &mut Cpu,
    fronts: &mut Fronts,
    line: &TraceLine,
    found: &[EntryState],
    given: &[u8],
    out: &mut String,
    slot: &mut ReplySlot,
) -> Result<Option<usize>, AllocError>
    requires { is_quiet line.now.act ≡ false }
    ensures { IfOk
        result
        (λ o.
        TellsReply
        (record {
          context = context.now;
          closing = closing.now;
          line = line.now;
          found = found.now;
          given = given.now;
        })
        processor.old
        (front_of fronts.old opening.now)
        o
        processor.new
        (front_of fronts.new opening.now)) }
{
    let Some(count) = line_reply(context, processor, line, found, given, out, slot)? else {
        return Ok(None);
    };
    let gone = gone_line_of(processor, &line.act, slot);
    if !has_left(closing, &gone) {
        return Ok(None);
    }
    if !keep_fronts(fronts, opening, &gone, receipts_of(slot))? {
        return Ok(None);
    }
    after_line(processor, &line.act, slot);
    Ok(Some(count))
}
