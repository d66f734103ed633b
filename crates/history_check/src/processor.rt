//! What a judged line does to its processor: the SLB, masks and cached translations after it, and
//! the cached translation that it found gone.
ghost use Rattle.std.specs.Prelude.{◌≡◌, List};
ghost use Rattle.entry_model.specs.declared.receipt.Receipt.{Receipt};
ghost use Rattle.entry_model.specs.Replies.{access_reply_with};
ghost use Rattle.slb_model.specs.Buffer.{segment_of};
ghost use Rattle.tlb_model.specs.CacheAfter.{gone_line};
ghost use Rattle.run_model.specs.Processors as processors;
ghost use Rattle.trace_reply.specs.Slots.{reply_in};
ghost use Rattle.history_check.specs.LineReply.{LineFindsPage};

use entry_model::{AccessEnd, By, Line};
use trace_line::Act;
use trace_reply::{ReplyEnd, ReplySlot};
use vcpu::Cpu;

/// The cached translation of the page that an access walked.
fn passed(cpu: &Cpu, ea: u64, end: &AccessEnd) -> Option<Line>
    ensures { (rs : List Receipt)
        → result
        ≡ gone_line
        cpu.now.cache
        (segment_of cpu.now.slots ea)
        (access_reply_with end.now rs) }
{
    match (cpu.segment(ea), end.by) {
        (Some(segment), Some(By::Walk)) => cpu.cached(&segment.page),
        _ => None,
    }
}

/// The cached translation that is gone, if the reply to a line is in the slot: that of the page
/// that it walked.
pub fn gone_line_of(cpu: &Cpu, act: &Act, slot: &ReplySlot) -> Option<Line>
    ensures { result ≡ processors.gone_line_of cpu.now act.now (reply_in slot.now) }
{
    match (*act, &slot.end) {
        (Act::Access { ea, .. }, ReplyEnd::Access(end)) => passed(cpu, ea, end),
        _ => None,
    }
}

/// Leaves the processor as it is after one of its lines, whose reply is in the slot.
pub fn after_line(cpu: &mut Cpu, act: &Act, slot: &ReplySlot)
    requires { LineFindsPage cpu.old act.now (reply_in slot.now) }
    ensures { cpu.new ≡ processors.processor_after cpu.old act.now (reply_in slot.now) }
{
    match (*act, &slot.end) {
        (Act::SlbMte { rb, rs }, _) => {
            let _refused = cpu.mte(rb, rs);
        }
        (Act::SlbClear, _) => cpu.clear_slb(),
        (Act::SetMask { name, value }, _) => cpu.masks().set(name, value),
        (Act::Access { ea, .. }, ReplyEnd::Access(end)) => {
            cpu.after_access(ea, end, slot.receipts.as_slice());
        }
        _ => {}
    }
}
