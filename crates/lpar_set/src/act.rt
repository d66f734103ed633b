//! How a line of a partition of a set is run if it isn't quiet: a hypervisor call, an access, a
//! change of segments or of a mask.
ghost use Rattle.std.specs.Prelude.{◌≡◌, false, length, IfSome};
ghost use Rattle.tlb_model.specs.Cache.{AllCached};
ghost use Rattle.entry_model.specs.CachedLines.{AllLater};
ghost use Rattle.entry_model.specs.Run.{IsRun};
ghost use Rattle.papr_table.specs.TableState.{IsMade, IsSeen, IsGone};
ghost use Rattle.hpt_walk.specs.Access.{access_context};
ghost use Rattle.trace_line.specs.Lines.{is_quiet};
ghost use Rattle.trace_reply.specs.Replies.{receipts_in};
ghost use Rattle.trace_reply.specs.Slots.{reply_in};
ghost use Rattle.run_model.specs.Processors.{processor_after, gone_line_of};
ghost use Rattle.run_model.specs.LineReplies.{IsCallReply, IsReplyToAccess};
ghost use Rattle.run_model.specs.SerialRun.{line_result};
ghost use Rattle.run_model.specs.StoreContexts.{table_context};

use entry_model::DeviceOutcome;
use frame_grants::Grants;
use papr_codes::Hcall;
use papr_table::PlainTable;
use run_model::{Surroundings, make_call};
use trace_line::Act;
use trace_reply::{ReplyEnd, ReplySlot};
use vcpu::Cpu;

/// Runs a line that isn't quiet on a table that nobody else is at, by this processor. Its reply
/// is put into the slot, and it and the states after it are the serial run's.
pub fn run_act(
    table: &mut PlainTable,
    cpu: &mut Cpu,
    grants: &Grants,
    act: &Act,
    slot: &mut ReplySlot,
)
    requires not_quiet { is_quiet act.now ≡ false }
    requires seen { AllCached (IsSeen table.old) cpu.old.cache }
    ensures reply { (reply_in slot.new, table.new.states)
        ≡ line_result
        (table_context (access_context table.old.order grants.now.grants))
        cpu.old
        table.old.states
        act.now }
    ensures run { IsRun table.old.states (receipts_in (reply_in slot.new)) table.new.states }
    ensures processor { cpu.new ≡ processor_after cpu.old act.now (reply_in slot.new) }
    ensures order { table.new.order ≡ table.old.order }
    ensures size { length table.new.states ≡ length table.old.states }
    ensures seen { AllCached (IsSeen table.new) cpu.new.cache }
{
    apply_act(table, cpu, grants, act, slot);
}

/// Runs a line by what the calls and accesses themselves promise of their replies.
fn apply_act(
    table: &mut PlainTable,
    cpu: &mut Cpu,
    grants: &Grants,
    act: &Act,
    slot: &mut ReplySlot,
)
    requires not_quiet { is_quiet act.now ≡ false }
    requires seen { AllCached (IsSeen table.old) cpu.old.cache }
    ensures made { IsMade table.old table.new (receipts_in (reply_in slot.new)) }
    ensures call { IsCallReply
        (table_context (access_context table.old.order grants.now.grants))
        act.now
        (reply_in slot.new) }
    ensures access { IsReplyToAccess
        (access_context table.old.order grants.now.grants)
        cpu.old
        act.now
        (reply_in slot.new) }
    ensures processor { cpu.new ≡ processor_after cpu.old act.now (reply_in slot.new) }
    ensures seen { AllCached (IsSeen table.new) cpu.new.cache }

    // Of a cached translation that was gone, the line's own receipts come later, and it is gone for
    // the table.
    ensures comes_later { IfSome
        (gone_line_of cpu.old act.now (reply_in slot.new))
        (λ line. AllLater line (receipts_in (reply_in slot.new))) }
    ensures gone { IfSome
        (gone_line_of cpu.old act.now (reply_in slot.new))
        (IsGone table.new) }
{
    match *act {
        Act::Call { number, args, .. } => {
            let hcall = Hcall::of_number(number);
            // A partition of a set has no window.
            let around = Surroundings {
                grants,
                window: None,
            };
            let registers = make_call(table, &around, hcall, &args, &mut slot.receipts);
            slot.end = ReplyEnd::Hcall(registers);
        }
        Act::Access { want, ea, user } => {
            let end = cpu.access_into(table, grants, ea, want, user, &mut slot.receipts);
            slot.end = ReplyEnd::Access(end);
        }
        Act::Device { .. } => {
            slot.receipts.clear();
            slot.end = ReplyEnd::Device(DeviceOutcome::NoWindow);
        }
        Act::SlbMte { rb, rs } => slot.end = ReplyEnd::Segment(cpu.mte(rb, rs).is_ok()),
        Act::SlbClear => {
            cpu.clear_slb();
            slot.end = ReplyEnd::Segment(true);
        }
        Act::SetMask { name, value } => {
            cpu.masks().set(name, value);
            slot.end = ReplyEnd::MaskSet;
        }
        // Not reached: a dump is quiet.
        Act::Dump => slot.end = ReplyEnd::Segment(true),
    }
}
