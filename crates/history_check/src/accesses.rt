//! The reply to an access, made again from the entry states that its operations found: by a cached
//! translation or by a walk of the page.
ghost use Rattle.hpte_fields.specs.TableSize.{IsTableOrder};
ghost use Rattle.std.specs.Prelude.{◌≡◌, length, List, Some, IfSome, IfNone};
ghost use Rattle.entry_model.specs.declared.receipt.Receipt.{Receipt};
ghost use Rattle.entry_model.specs.Receipt.{is_no_match, found_of};
ghost use Rattle.entry_model.specs.Reply.{access_mode};
ghost use Rattle.entry_model.specs.Replies.{access_reply_with};
ghost use Rattle.entry_model.specs.Trial.{IsTrial};
ghost use Rattle.hpt_walk.specs.Walk.{walk_calls};
ghost use Rattle.history_check.specs.Replay.{before_each};
ghost use Rattle.entry_model.specs.declared.access_reply.AccessReply.{AccessReply};
ghost use Rattle.entry_model.specs.declared.access_reply.By.TheVariants.{Hit, Walk};
ghost use Rattle.hpt_walk.specs.Access.{IsHit, IsWalk};
ghost use Rattle.run_model.specs.StoreContexts.{access_of};
ghost use Rattle.history_check.specs.Hits.{IsHitBy};

use crate::context::Context;
use crate::replay::Replay;
use authority_mask::Masks;
use entry_model::{AccessEnd, Answer, By, EntryState, Line, Op, Receipt, Receipts, reply};
use hpt_walk::{Request, walk_into};
use hpte_fields::secondary;
use power_addr::Page;
use slb_model::Segment;
use storage_prot::Want;
use vcpu::{key, operation, outcome, outcome_at};

/// The receipt that the walk of a page gives back, whose operations found these states, one after
/// the other, on a table of `2^order` bytes. Its receipts take the place of what is in `receipts`.
/// There is no other such walk.
fn walk_on(
    states: &[EntryState],
    order: u8,
    page: &Page,
    want: Want,
    key: bool,
    no_execute: bool,
    masks: Masks,
    receipts: &mut Receipts,
) -> Option<Receipt>
    requires order { IsTableOrder order }
    ensures trial { IsTrial
        is_no_match
        (walk_calls order page.now (access_mode key no_execute want masks))
        receipts.new }
    ensures found { result ≡ found_of receipts.new }
    ensures before { length receipts.new ≡ length states.now
        → before_each receipts.new ≡ states.now }
    ensures only { (rs : List Receipt)
        → IsTrial
        is_no_match
        (walk_calls order page.now (access_mode key no_execute want masks))
        rs
        → before_each rs ≡ states.now
        → receipts.new ≡ rs }
{
    let mut store = Replay::new(states, order);
    walk_into(&mut store, page, want, key, no_execute, masks, receipts)
}

fn is_current(line: &Line, state: &EntryState) -> bool
    ensures { result ≡ Rattle.history_check.specs.Hits.is_at_line line.now state.now }
{
    state.valid
        && state.stamp == line.stamp
        && state.dword0 == line.dword0
        && state.dword1 == line.dword1
}

/// The receipt of an access by a cached translation whose entry was in this state. `None` where
/// there is none.
fn hit_on(state: &EntryState, line: &Line, op: Op) -> Option<Receipt>
    ensures some { IfSome result (IsHitBy line.now op state.now) }
    ensures none { IfNone result ((r : Receipt) → IsHitBy line.now op state.now r → ⊥) }
{
    if !is_current(line, state) {
        return None;
    }
    let (answer, _) = reply(state, &op);
    match answer {
        Answer::Denied | Answer::Masked | Answer::At => Some(Receipt {
            entry: line.entry,
            before: *state,
            op,
            answer,
        }),
        _ => None,
    }
}

/// How an access by the line of its page that is cached ends, by an operation that found these
/// states. Its receipt takes the place of what is in `receipts`. `None` where there is no such
/// reply.
pub fn hit_end(
    context: &Context,
    segment: &Segment,
    request: &Request,
    line: &Line,
    found: &[EntryState],
    receipts: &mut Receipts,
) -> Option<AccessEnd>
    ensures some { IfSome
        result
        (λ end.
        (end.by ≡ Some Hit)
        × (before_each receipts.new ≡ found.now)
        × IsHit
        (access_of context.now)
        segment.now
        request.now
        line.now
        (access_reply_with end receipts.new)
        × ((q : AccessReply)
        → q.by ≡ Some Hit
        → IsHit (access_of context.now) segment.now request.now line.now q
        → before_each q.receipts ≡ found.now
        → access_reply_with end receipts.new ≡ q)) }
    ensures none { IfNone
        result
        ((q : AccessReply)
        → IsHit (access_of context.now) segment.now request.now line.now q
        → before_each q.receipts ≡ found.now
        → ⊥) }
{
    if found.len() != 1 {
        return None;
    }
    let op = operation(segment, request, secondary(line.dword0));
    let receipt = hit_on(&found[0], line, op)?;
    let outcome = outcome_at(context.grants, request.ea, &receipt);
    receipts.clear();
    receipts.push(receipt);
    Some(AccessEnd {
        outcome,
        by: Some(By::Hit),
    })
}

/// How an access by a walk ends, by operations that found these states, one after the other. Its
/// receipts take the place of what is in `receipts`.
#[tactic(auto, unfolding(hpt_walk::specs::Access::outcome_of))]
pub fn walk_end(
    context: &Context,
    segment: &Segment,
    request: &Request,
    found: &[EntryState],
    receipts: &mut Receipts,
) -> AccessEnd
    ensures by { result.by ≡ Some Walk }
    ensures walk { IsWalk
        (access_of context.now)
        segment.now
        request.now
        (access_reply_with result receipts.new) }
    ensures before { length receipts.new ≡ length found.now
        → before_each receipts.new ≡ found.now }
    ensures only { (q : AccessReply)
        → q.by ≡ Some Walk
        → IsWalk (access_of context.now) segment.now request.now q
        → before_each q.receipts ≡ found.now
        → access_reply_with result receipts.new ≡ q }
{
    let walked = walk_on(
        found,
        context.order,
        &segment.page,
        request.want,
        key(segment, request.user),
        segment.no_execute,
        request.masks,
        receipts,
    );
    let outcome = outcome(context.grants, request.ea, &walked);
    AccessEnd {
        outcome,
        by: Some(By::Walk),
    }
}
