//! The reply to one line that the states found and the given text allow: an access by a cached
//! translation is tried first, then all else.
ghost use Rattle.std.specs.Prelude.{◌≡◌, length, true, false, is_none, Some, IsSomeAnd, IfOk, IfSome, IfNone};
ghost use Rattle.slb_model.specs.Refusals.{mte_refusal};
ghost use Rattle.entry_model.specs.declared.access_reply.AccessReply.{AccessReply};
ghost use Rattle.entry_model.specs.declared.access_reply.By.TheVariants.{Hit};
ghost use Rattle.entry_model.specs.Replies.{access_reply_with};
ghost use Rattle.tlb_model.specs.Cache.{cached_line};
ghost use Rattle.hpt_walk.specs.Access.{IsByWay};
ghost use Rattle.run_model.specs.StoreContexts.{access_of};
ghost use Rattle.trace_line.specs.Lines.{is_quiet};
ghost use Rattle.trace_reply.specs.declared.reply.Reply.{Reply};
ghost use Rattle.trace_reply.specs.Slots.{reply_in};
ghost use Rattle.trace_reply.specs.Replies.{receipts_in};
ghost use Rattle.history_check.specs.Replay.{before_each};
ghost use Rattle.history_check.specs.LineReply.{IsAccessOn, IsHitReply, IsReplyTo, IsReplyOn, FitsText, FitsNoReply};

use crate::accesses::{hit_end, walk_end};
use crate::calls::{call_on, device_on};
use crate::context::Context;
use crate::fitting::fitting;
use entry_model::{AccessEnd, EntryState, Outcome, Receipts};
use hpt_walk::Request;
use papr_codes::Hcall;
use run_model::Surroundings;
use slb_model::{Segment, Slb};
use std::alloc::AllocError;
use trace_line::{Act, TraceLine};
use trace_reply::{ReplyEnd, ReplySlot};
use vcpu::Cpu;

/// Whether an `slbmte` of these words is accepted.
fn is_accepted(rb: u64, rs: u64) -> bool
    ensures { result ≡ is_none (mte_refusal rb rs) }
{
    Slb::new().mte(rb, rs).is_ok()
}

/// How an access ends by the line of its page, if one is cached, by an operation that found these
/// states. Its receipt takes the place of what is in `receipts`. `None` where there is no such
/// reply.
fn cached_end(
    context: &Context,
    processor: &Cpu,
    segment: &Segment,
    request: &Request,
    found: &[EntryState],
    receipts: &mut Receipts,
) -> Option<AccessEnd>
    ensures some { IfSome
        result
        (λ end.
        (end.by ≡ Some Hit)
        × (before_each receipts.new ≡ found.now)
        × IsByWay
        (access_of context.now)
        segment.now
        request.now
        (cached_line processor.now.cache segment.now.page)
        (Some Hit)
        (access_reply_with end receipts.new)) }
    ensures only { (q : AccessReply)
        → q.by ≡ Some Hit
        → IsByWay
        (access_of context.now)
        segment.now
        request.now
        (cached_line processor.now.cache segment.now.page)
        (Some Hit)
        q
        → before_each q.receipts ≡ found.now
        → IsSomeAnd result (λ end. access_reply_with end receipts.new ≡ q) }
{
    let line = processor.cached(&segment.page)?;
    hit_end(context, segment, request, &line, found, receipts)
}

/// How an access of a segment's address ends past its cache, or without a segment, by operations
/// that found these states, one after the other. Its receipts take the place of what is in
/// `receipts`.
fn uncached_end(
    context: &Context,
    processor: &Cpu,
    request: &Request,
    found: &[EntryState],
    receipts: &mut Receipts,
) -> AccessEnd
    ensures reply { IsAccessOn
        (access_of context.now)
        processor.now
        request.now
        (access_reply_with result receipts.new) }
    ensures before { length receipts.new ≡ length found.now
        → before_each receipts.new ≡ found.now }
    ensures only { (q : AccessReply)
        → IsAccessOn (access_of context.now) processor.now request.now q
        → (q.by ≡ Some Hit → ⊥)
        → before_each q.receipts ≡ found.now
        → access_reply_with result receipts.new ≡ q }
{
    match processor.segment(request.ea) {
        None => {
            receipts.clear();
            AccessEnd {
                outcome: Outcome::NoSegment,
                by: None,
            }
        }
        Some(segment) => walk_end(context, &segment, request, found, receipts),
    }
}

/// Puts the reply to an access by the line of its page into the slot, if that line is cached and
/// the access can have found these states by it. Answers whether there is such a reply.
fn put_hit(
    context: &Context,
    processor: &Cpu,
    act: &Act,
    found: &[EntryState],
    slot: &mut ReplySlot,
) -> bool
    ensures yes { result ≡ true
        → IsReplyOn context.now processor.now act.now found.now (reply_in slot.new) }
    ensures only { (q : Reply)
        → IsReplyOn context.now processor.now act.now found.now q
        → IsHitReply q
        → (result ≡ true) × (reply_in slot.new ≡ q) }
{
    let Act::Access { want, ea, user } = *act else {
        return false;
    };
    let Some(segment) = processor.segment(ea) else {
        return false;
    };
    let request = Request {
        want,
        ea,
        user,
        masks: processor.authority(),
    };
    let receipts = &mut slot.receipts;
    match cached_end(context, processor, &segment, &request, found, receipts) {
        None => false,
        Some(end) => {
            slot.end = ReplyEnd::Access(end);
            true
        }
    }
}

/// Puts the reply to a line that isn't quiet, by operations that found these states and past the
/// cache, into the slot.
fn put_other(
    context: &Context,
    processor: &Cpu,
    act: &Act,
    found: &[EntryState],
    slot: &mut ReplySlot,
)
    requires { is_quiet act.now ≡ false }
    ensures reply { IsReplyTo context.now processor.now act.now (reply_in slot.new) }
    ensures before { length (receipts_in (reply_in slot.new)) ≡ length found.now
        → before_each (receipts_in (reply_in slot.new)) ≡ found.now }
    ensures only { (q : Reply)
        → IsReplyOn context.now processor.now act.now found.now q
        → (IsHitReply q → ⊥)
        → reply_in slot.new ≡ q }
{
    let receipts = &mut slot.receipts;
    let around = Surroundings {
        grants: context.grants,
        window: context.window,
    };
    match *act {
        Act::Call { number, args, .. } => {
            let hcall = Hcall::of_number(number);
            let registers = call_on(found, context.order, &around, hcall, &args, receipts);
            slot.end = ReplyEnd::Hcall(registers);
        }
        Act::Access { want, ea, user } => {
            let request = Request {
                want,
                ea,
                user,
                masks: processor.authority(),
            };
            let end = uncached_end(context, processor, &request, found, receipts);
            slot.end = ReplyEnd::Access(end);
        }
        Act::Device { write, ioba, .. } => {
            let outcome = device_on(found, context.order, &around, ioba, write, receipts);
            slot.end = ReplyEnd::Device(outcome);
        }
        Act::SlbMte { rb, rs } => slot.end = ReplyEnd::Segment(is_accepted(rb, rs)),
        Act::SlbClear => slot.end = ReplyEnd::Segment(true),
        Act::SetMask { .. } => slot.end = ReplyEnd::MaskSet,
        // Not reached: a dump is quiet.
        Act::Dump => slot.end = ReplyEnd::Segment(true),
    }
}

/// Puts the reply to a line that isn't quiet, by operations that found these states, into the slot.
/// Gives how many bytes its text has, if the given text begins with it, and `None` where that
/// begins with the text of no such reply. `out` is room to write in.
pub fn line_reply(
    context: &Context,
    processor: &Cpu,
    line: &TraceLine,
    found: &[EntryState],
    given: &[u8],
    out: &mut String,
    slot: &mut ReplySlot,
) -> Result<Option<usize>, AllocError>
    requires { is_quiet line.now.act ≡ false }
    ensures some { IfOk
        result
        (λ o.
        IfSome
        o
        (λ n.
        IsReplyTo context.now processor.now line.now.act (reply_in slot.new)
        × FitsText line.now found.now given.now (reply_in slot.new) n)) }
    ensures none { IfOk
        result
        (λ o. IfNone o (FitsNoReply context.now processor.now line.now found.now given.now)) }
{
    if put_hit(context, processor, &line.act, found, slot) {
        if let Some(count) = fitting(out, line, slot, found, given)? {
            return Ok(Some(count));
        }
    }
    put_other(context, processor, &line.act, found, slot);
    fitting(out, line, slot, found, given)
}
