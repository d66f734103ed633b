//! Replies that are kept whole.
ghost use Rattle.std.specs.Prelude.{◌≡◌, ◌-◌, List};
ghost use Rattle.std.specs.VecDeque.{deque_len, deque_capacity};
ghost use Rattle.trace_reply.specs.declared.reply.Reply.{Reply as ReplyOf};

use crate::log::{ReplyLog, RunLog};
use std::alloc::{AllocError, Global};
use std::collections::VecDeque;
use std::mem;
use trace_line::TraceLine;
use trace_reply::{Replies, Reply, ReplySlot};

/// The replies themselves.
#[derive(Drop)]
pub struct ReplyQueue {
    replies: VecDeque<Reply>,
}

impl ReplyLog for ReplyQueue {
    ghost keeps = { λ log ls rs. log.replies.items ≡ rs };

    ghost room = { λ log. deque_capacity log.replies - deque_len log.replies };

    fn keep(&mut self, _line: &TraceLine, slot: &mut ReplySlot) {
        let full = mem::replace(slot, ReplySlot::new());
        self.replies.push_back_reserved(full.into_reply());
    }
}

impl RunLog for ReplyQueue {
    type Output = Replies;

    ghost has = { λ replies ls rs. replies.items ≡ rs };

    fn with_room(alloc: Global, lines: usize) -> Result<ReplyQueue, AllocError> {
        let replies = VecDeque::with_capacity(alloc, lines)?;
        Ok(ReplyQueue { replies })
    }

    fn output(alloc: Global, lines: usize) -> Result<Replies, AllocError> {
        let mut replies = Replies::new(alloc);
        replies.reserve(lines)?;
        Ok(replies)
    }

    fn put(
        replies: &mut Replies,
        _line: &TraceLine,
        slot: &mut ReplySlot,
    ) -> Result<(), AllocError> {
        let full = mem::replace(slot, ReplySlot::new());
        replies.push(full.into_reply())
    }

    fn move_first(&mut self, replies: &mut Replies) -> Result<(), AllocError> {
        let reply = self.replies.pop_front().unwrap();
        replies.push(reply)
    }
}
