//! Nine running totals, raised as each reply is made, so that a summary needs no list of replies.
ghost use Rattle.std.specs.Prelude.{◌≡◌, ◌+◌, ◌^◌, ◌<◌, if◌then◌else◌};
ghost use Rattle.reply_text.specs.declared.counted.Counted.{Counted};
ghost use Rattle.trace_reply.specs.Slots.{reply_in};
ghost use Rattle.reply_text.specs.Summary.{count_of, counts_kind, is_counted};

use crate::counted::Counted;
use crate::kind::ReplyKind;
use trace_reply::{Reply, ReplySlot};

/// The counts of a summary, raised reply by reply as a trace runs.
#[derive(Clone, Copy, PartialEq, Eq, Debug)]
pub struct Counts {
    hcalls: u64,
    success: u64,
    full: u64,
    not_found: u64,
    accesses: u64,
    at: u64,
    denied: u64,
    no_page: u64,
    hits: u64,
}

impl Counts {
    /// The counts of no replies: all 0.
    pub fn new() -> Self
        ensures { (counted : Counted) → count_of result counted ≡ 0 }
    {
        Counts {
            hcalls: 0,
            success: 0,
            full: 0,
            not_found: 0,
            accesses: 0,
            at: 0,
            denied: 0,
            no_page: 0,
            hits: 0,
        }
    }

    /// Counts one more reply.
    pub fn add(&mut self, reply: &Reply)
        requires { (counted : Counted) → count_of self.old counted + 1 < 2 ^ 64 }
        ensures { (counted : Counted) → count_of self.new counted
            ≡ count_of self.old counted + (if is_counted counted reply.now then 1 else 0) }
    {
        self.raise(ReplyKind::of(reply));
    }

    /// Counts the reply in the slot.
    pub fn add_slot(&mut self, slot: &ReplySlot)
        requires { (counted : Counted) → count_of self.old counted + 1 < 2 ^ 64 }
        ensures { (counted : Counted) → count_of self.new counted
            ≡ count_of self.old counted
            + (if is_counted counted (reply_in slot.now) then 1 else 0) }
    {
        self.raise(ReplyKind::in_slot(slot));
    }

    /// Counts one more reply of this kind.
    fn raise(&mut self, kind: ReplyKind)
        requires { (counted : Counted) → count_of self.old counted + 1 < 2 ^ 64 }
        ensures { (counted : Counted) → count_of self.new counted
            ≡ count_of self.old counted + (if counts_kind counted kind then 1 else 0) }
    {
        self.hcalls += u64::from(Counted::Hcalls.counts(kind));
        self.success += u64::from(Counted::Success.counts(kind));
        self.full += u64::from(Counted::Full.counts(kind));
        self.not_found += u64::from(Counted::NotFound.counts(kind));
        self.accesses += u64::from(Counted::Accesses.counts(kind));
        self.at += u64::from(Counted::At.counts(kind));
        self.denied += u64::from(Counted::Denied.counts(kind));
        self.no_page += u64::from(Counted::NoPage.counts(kind));
        self.hits += u64::from(Counted::Hits.counts(kind));
    }

    /// How many of the replies are counted here.
    pub fn number(&self, counted: Counted) -> u64
        ensures { result ≡ count_of self.now counted }
    {
        match counted {
            Counted::Hcalls => self.hcalls,
            Counted::Success => self.success,
            Counted::Full => self.full,
            Counted::NotFound => self.not_found,
            Counted::Accesses => self.accesses,
            Counted::At => self.at,
            Counted::Denied => self.denied,
            Counted::NoPage => self.no_page,
            Counted::Hits => self.hits,
        }
    }
}
