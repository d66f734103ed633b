//! Replies that are kept as their text.
ghost use Rattle.std.specs.Prelude.{string_bytes, string_len, string_capacity};
ghost use Rattle.std.specs.VecDeque.{deque_len, deque_capacity};
ghost use Rattle.trace_runner.specs.TextLog.{text_room, KeepsText, HasText};

use crate::log::{ReplyLog, RunLog};
use reply_text::{REPLY_ROOM, put_slot};
use std::alloc::{AllocError, Global};
use std::collections::VecDeque;
use trace_line::TraceLine;
use trace_reply::ReplySlot;

/// Room in the text of a run for the line of a common reply. Longer texts make theirs as they grow.
const COMMON_ROOM: usize = 128;

/// The text of the replies, one after the other, and where the text of each ends. That of the
/// first one begins at `start`.
#[derive(Drop)]
pub struct ReplyText {
    text: String,
    ends: VecDeque<usize>,
    start: usize,
}

impl ReplyLog for ReplyText {
    ghost keeps = { λ log ls rs. KeepsText (string_bytes log.text) log.ends.items log.start ls rs };

    ghost room = { λ log.
        text_room
        (string_capacity log.text)
        (string_len log.text)
        (deque_capacity log.ends)
        (deque_len log.ends) };

    fn keep(&mut self, line: &TraceLine, slot: &mut ReplySlot) {
        put_slot(&mut self.text, line, slot).unwrap();
        self.ends.push_back_reserved(self.text.len());
    }
}

impl RunLog for ReplyText {
    type Output = String;

    ghost has = { λ text ls rs. HasText (string_bytes text) ls rs };

    fn with_room(alloc: Global, lines: usize) -> Result<ReplyText, AllocError> {
        let Some(bytes) = lines.checked_mul(REPLY_ROOM) else {
            return Err(AllocError);
        };
        let text = String::with_capacity(alloc, bytes)?;
        let ends = VecDeque::with_capacity(alloc, lines)?;
        Ok(ReplyText {
            text,
            ends,
            start: 0,
        })
    }

    fn output(alloc: Global, lines: usize) -> Result<String, AllocError> {
        String::with_capacity(alloc, lines.saturating_mul(COMMON_ROOM))
    }

    fn put(text: &mut String, line: &TraceLine, slot: &mut ReplySlot) -> Result<(), AllocError> {
        put_slot(text, line, slot)
    }

    fn move_first(&mut self, text: &mut String) -> Result<(), AllocError> {
        let end = self.ends.pop_front().unwrap();
        let first = &self.text[self.start..end];
        text.push_str(first)?;
        self.start = end;
        Ok(())
    }
}
