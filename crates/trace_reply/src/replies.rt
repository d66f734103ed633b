//! A list of replies whose room can be made beforehand: a reply appended within it takes no memory.
ghost use Rattle.std.specs.Prelude.{◌≡◌, ◌≤◌, ◌-◌, ◌++◌, max, [], ◌∷◌, OnOk, OnErr, IsOk};

use crate::reply::Reply;
use std::alloc::{AllocError, Global};
use std::marker::Model;

/// The replies to the lines of a trace, in file order, and the room for further ones.
#[derive(Drop)]
pub struct Replies {
    items: Vec<Reply>,
}

impl Model for Replies {
    ghost use Rattle.std.specs.Prelude.{◌-◌, vec_len, vec_capacity};
    ghost use Rattle.trace_reply.specs.ReplyList.{ReplyList};

    ghost Value = { ReplyList };

    ghost view = { λ r.
        record { items = r.items.items; spare = vec_capacity r.items - vec_len r.items } };
}

impl Replies {
    /// No reply. It takes no memory; later replies are kept in `alloc`.
    pub fn new(alloc: Global) -> Self
        ensures none { result.items ≡ [] }
        ensures room { result.spare ≡ 0 }
    {
        Replies {
            items: Vec::new(alloc),
        }
    }

    /// Makes room for so many further replies, and for no more.
    pub fn reserve(&mut self, more: usize) -> Result<(), AllocError>
        ensures ok { OnOk result (self.new.spare ≡ max self.old.spare more) }
        ensures same { self.new.items ≡ self.old.items }
    {
        self.items.reserve_exact(more)
    }

    /// Appends a reply. In room that was made it takes no memory. Where memory ends, the list stays
    /// as it was.
    pub fn push(&mut self, reply: Reply) -> Result<(), AllocError>
        ensures ok { OnOk result (self.new.items ≡ self.old.items ++ reply ∷ []) }
        ensures room { 1 ≤ self.old.spare → IsOk result × (self.new.spare ≡ self.old.spare - 1) }
        ensures err { OnErr result (self.new.items ≡ self.old.items) }
    {
        if self.items.len() < self.items.capacity() {
            self.items.push_reserved(reply);
            return Ok(());
        }
        self.items.push(reply)?;
        Ok(())
    }

    pub fn as_slice(&self) -> &[Reply]
        ensures { result.now ≡ self.now.items }
    {
        self.items.as_slice()
    }
}
