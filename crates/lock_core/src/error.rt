//! The causes for which a machine isn't made or a step is refused.

/// Why a core wasn't made, or a step not taken.
#[derive(Clone, Copy, PartialEq, Eq, Debug)]
pub enum CoreError {
    /// There may be 1 to 64 actors.
    Actors,
    /// The actor isn't live, or the other actor of a split or a join can't take part.
    Actor,
    /// The entry isn't in the table.
    Entry,
    /// The step isn't one of the actor's phase.
    Phase,
    /// There is not enough memory.
    Memory,
}
