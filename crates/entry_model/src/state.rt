//! The contents of a page table entry: its doublewords without R and C, these two bits, and the
//! stamp that counts its changes.
ghost use Rattle.std.specs.Prelude.{◌≡◌};

use hpte_fields::{CHANGED, REFERENCED};
use std::marker::Model;

/// The state of one page table entry. It is written in one way: R and C stand apart from doubleword
/// 1, and an entry that isn't valid has neither words nor bits. It lies in memory as C lays a
/// struct of these fields, in 24 bytes, so that C can lend a table of them; all zero is an empty
/// one.
#[repr(C)]
#[derive(Clone, Copy, PartialEq, Eq, Debug)]
pub struct EntryState {
    // Fields lie in memory in this order: the wide ones first, so that no room is lost.
    /// Doubleword 0 of the page table entry; 0 where the entry is not valid.
    pub dword0: u64,
    /// Doubleword 1, with R and C clear.
    pub dword1: u64,
    /// How often the entry has changed, except for R and C that accesses set.
    pub stamp: u32,
    /// V: the entry translates a page.
    pub valid: bool,
    /// R: the page was referenced.
    pub referenced: bool,
    /// C: the page was changed.
    pub changed: bool,
}

impl Model for EntryState {
    ghost use Rattle.entry_model.specs.State.{State, IsCanonical};

    ghost Value = { State };

    ghost view = { λ s.
        record {
          valid = s.valid;
          dword0 = s.dword0;
          dword1 = s.dword1;
          referenced = s.referenced;
          changed = s.changed;
          stamp = s.stamp;
        } };

    ghost invariant = { λ s. IsCanonical s.valid s.dword0 s.dword1 s.referenced s.changed };

    ghost inverse = { λ s.
        record {
          valid = s.valid;
          dword0 = s.dword0;
          dword1 = s.dword1;
          referenced = s.referenced;
          changed = s.changed;
          stamp = s.stamp;
        } };
}

impl EntryState {
    ghost use Rattle.entry_model.specs.State.{empty_state};
    ghost use Rattle.entry_model.specs.Reply.{words_of};

    /// An entry with nothing in it.
    pub fn empty(stamp: u32) -> EntryState
        ensures { result ≡ empty_state stamp }
    {
        EntryState {
            valid: false,
            dword0: 0,
            dword1: 0,
            referenced: false,
            changed: false,
            stamp,
        }
    }

    /// The two doublewords, with R and C put back into the second.
    pub fn words(&self) -> (u64, u64)
        ensures { result ≡ words_of self.now }
    {
        let referenced = if self.referenced { REFERENCED } else { 0 };
        let changed = if self.changed { CHANGED } else { 0 };
        (self.dword0, self.dword1 | referenced | changed)
    }
}
