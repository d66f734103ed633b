//! The run of a set as a list of all its replies.
ghost use Rattle.std.specs.Prelude.{◌≡◌, length, IfOk};
ghost use Rattle.lpar_set.specs.SetLaws.{IsSetAssured};
ghost use Rattle.lpar_set.specs.SetRun.{opening_set, set_replies};

use crate::members::Members;
use crate::set::SetTrace;
use std::alloc::{AllocError, Global};
use trace_reply::{Replies, ReplySlot};

/// The replies to all lines of a set, whose partitions are before their first ones.
fn run_turns(alloc: Global, set: &SetTrace, members: &mut Members) -> Result<Replies, AllocError>
    requires { members.old ≡ opening_set set.now }
    ensures replies { IfOk result (λ r. r.items ≡ set_replies set.now) }
    ensures count { IfOk result (λ r. length r.items ≡ length set.now.turns) }
    ensures room { IfOk result (λ r. r.spare ≡ 0) }
{
    set.keeps_limits();
    let turns = set.turns();
    let mut replies = Replies::new(alloc);
    replies.reserve(turns.len())?;
    for turn in turns {
        let mut slot = ReplySlot::new();
        members.line(alloc, turn.partition, set.line_of(turn), &mut slot)?;
        replies.push(slot.into_reply())?;
    }
    Ok(replies)
}

/// The replies to the lines of a set, one after the other in file order, in no more room than they
/// need. The only error is want of memory.
pub fn run_set(alloc: Global, set: &SetTrace) -> Result<Replies, AllocError>
    ensures replies { IfOk result (λ r. r.items ≡ set_replies set.now) }
    ensures count { IfOk result (λ r. length r.items ≡ length set.now.turns) }
    ensures room { IfOk result (λ r. r.spare ≡ 0) }
    ensures assured { IsSetAssured set.now (set_replies set.now) }
{
    set.keeps_limits();
    let mut members = Members::open(alloc, set)?;
    run_turns(alloc, set, &mut members)
}
