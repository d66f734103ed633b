//! An actor of the protocol: its phase, the receipts that it has, and the translations that it has
//! seen.
use crate::phase::Phase;
use crate::sighting::Sighting;
use entry_model::Receipt;
use std::marker::Model;

/// The most actors of a machine.
pub const MOST_ACTORS: u32 = 64;

/// An actor, which contracts see as that of `specs/Machine.antt`.
#[derive(Drop)]
pub struct Actor {
    /// It takes steps: it was split off and not joined since, or it was there first.
    pub live: bool,
    /// How far its operation has come.
    pub phase: Phase,
    /// The receipts that it made, and those that joins brought.
    pub receipts: Vec<Receipt>,
    /// The lines that it has seen.
    pub lines: Vec<Sighting>,
}

impl Model for Actor {
    ghost use Rattle.lock_core.specs.Machine.{Actor};

    ghost Value = { Actor };

    ghost view = { λ a.
        record {
          live = a.live;
          phase = a.phase;
          receipts = a.receipts.items;
          lines = a.lines.items;
        } };
}
