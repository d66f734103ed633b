//! Hypervisor calls and device accesses made again on the entry states that they found, and the
//! bound of sixteen operations a call.
ghost use Rattle.hpte_fields.specs.TableSize.{IsTableOrder};
ghost use Rattle.std.specs.Prelude.{◌≡◌, ◌≤◌, length};
ghost use Rattle.entry_model.specs.declared.device_reply.DeviceReply.{DeviceReply};
ghost use Rattle.entry_model.specs.declared.hreply.HReply.{HReply};
ghost use Rattle.entry_model.specs.Trial.{IsReplyOf};
ghost use Rattle.entry_model.specs.Replies.{device_reply_with, reply_with};
ghost use Rattle.trace_reply.specs.declared.reply.Reply.{Reply};
ghost use Rattle.run_model.specs.LineReplies.{hcall_plan, IsDeviceLine};
ghost use Rattle.run_model.specs.StoreContexts.{context_on};
ghost use Rattle.history_check.specs.Replay.{before_each};
ghost use Rattle.history_check.specs.Steps.{ops_of};
ghost use Rattle.history_check.specs.PlacedSteps.{named_ops};

use crate::context::Context;
use crate::replay::Replay;
use entry_model::{DeviceOutcome, EntryState, Receipts, Registers};
use papr_codes::Hcall;
use run_model::{Surroundings, make_call, make_device_access};
use trace_line::Act;

/// What a hypervisor call whose operations found these states, one after the other, leaves in
/// registers, on a store of `2^order` bytes. Its receipts take the place of what is in `receipts`.
/// There is no other such reply.
pub fn call_on(
    states: &[EntryState],
    order: u8,
    around: &Surroundings,
    hcall: Hcall,
    args: &[u64; 8],
    receipts: &mut Receipts,
) -> Registers
    requires order { IsTableOrder order }
    ensures reply { IsReplyOf
        (hcall_plan (context_on order around.now) hcall args.now)
        (reply_with result receipts.new) }
    ensures before { length receipts.new ≡ length states.now
        → before_each receipts.new ≡ states.now }
    ensures only { (k : HReply)
        → IsReplyOf (hcall_plan (context_on order around.now) hcall args.now) k
        → before_each k.receipts ≡ states.now
        → reply_with result receipts.new ≡ k }
{
    let mut store = Replay::new(states, order);
    make_call(&mut store, around, hcall, args, receipts)
}

/// How a device's access at a bus address ends, a read or a write, whose operations found these
/// states, on a store of `2^order` bytes. Its receipts take the place of what is in `receipts`.
/// There is no other such reply.
pub fn device_on(
    states: &[EntryState],
    order: u8,
    around: &Surroundings,
    ioba: u64,
    write: bool,
    receipts: &mut Receipts,
) -> DeviceOutcome
    requires order { IsTableOrder order }
    ensures reply { IsDeviceLine
        around.now.grants
        around.now.window
        write
        ioba
        (Reply.Device (device_reply_with result receipts.new)) }
    ensures before { length receipts.new ≡ length states.now
        → before_each receipts.new ≡ states.now }
    ensures only { (d : DeviceReply)
        → IsDeviceLine around.now.grants around.now.window write ioba (Reply.Device d)
        → before_each d.receipts ≡ states.now
        → device_reply_with result receipts.new ≡ d }
{
    let mut store = Replay::new(states, order);
    make_device_access(&mut store, around, ioba, write, receipts)
}

/// States that a hypervisor call has at most sixteen operations, and does nothing else.
fn call_names_few(context: &Context, hcall: Hcall, args: &[u64; 8])
    ensures { length (ops_of (hcall_plan context.now hcall args.now).calls) ≤ 16 }
{}

/// States the same of a line, and does nothing else.
pub fn names_few(context: &Context, act: &Act)
    ensures { length (named_ops context.now act.now) ≤ 16 }
{
    if let Act::Call { number, args, .. } = act {
        call_names_few(context, Hcall::of_number(*number), args);
    }
}
