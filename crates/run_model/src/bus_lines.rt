//! Lines that name a DMA window: TCE calls and accesses of devices, run on the window's own
//! entries.
ghost use Rattle.std.specs.Prelude.{◌≡◌, true, length, is_some};
ghost use Rattle.tlb_model.specs.Processor.{Processor};
ghost use Rattle.trace_line.specs.Lines.{bus_of};
ghost use Rattle.trace_reply.specs.Slots.{reply_in};
ghost use Rattle.run_model.specs.SerialRun.{line_result};
ghost use Rattle.run_model.specs.StoreContexts.{context_on};

use crate::calls::{make_call, make_device_access};
use crate::surroundings::Surroundings;
use papr_codes::Hcall;
use papr_table::PlainTable;
use trace_line::Act;
use trace_reply::{ReplyEnd, ReplySlot};

/// Runs a line that names a DMA window on the window's entries. Its reply is put into the slot.
/// Such a line uses nothing of a processor.
#[tactic(auto, unfolding(trace_line::specs::Lines::bus_of))]
pub fn run_on_bus(table: &mut PlainTable, around: &Surroundings, act: &Act, slot: &mut ReplySlot)
    requires on_bus { is_some (bus_of act.now) ≡ true }
    ensures reply { (p : Processor)
        → (reply_in slot.new, table.new.states)
        ≡ line_result (context_on table.old.order around.now) p table.old.states act.now }
    ensures order { table.new.order ≡ table.old.order }
    ensures size { length table.new.states ≡ length table.old.states }
{
    match *act {
        Act::Call { number, args, .. } => {
            let hcall = Hcall::of_number(number);
            let registers = make_call(table, around, hcall, &args, &mut slot.receipts);
            slot.end = ReplyEnd::Hcall(registers);
        }
        Act::Device { write, ioba, .. } => {
            let outcome = make_device_access(table, around, ioba, write, &mut slot.receipts);
            slot.end = ReplyEnd::Device(outcome);
        }
        // Not reached: no other line names a window.
        _ => {}
    }
}
