//! The phases of an actor: at no operation, with a lock, with a shut entry, or after the first look
//! of an access.
use crate::doing::Doing;

/// How far an actor's operation has come.
#[derive(Clone, Copy, PartialEq, Eq, Debug)]
pub enum Phase {
    /// It is at no operation.
    Idle,
    /// It holds the entry's lock.
    Held(Doing),
    /// It holds the entry's lock and has shut the entry.
    HeldShut(Doing),
    /// It has looked at the entry, for an access.
    Looked(Doing),
}
