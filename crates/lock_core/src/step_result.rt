//! The outcome of a step on an entry: its words, the actor's phase, and a receipt where an
//! operation ended.
use crate::entry::Entry;
use crate::phase::Phase;
use entry_model::Receipt;

/// What a step leaves of its entry and of its actor, and the receipt that it makes.
#[derive(Clone, Copy, Debug)]
pub struct StepResult {
    /// The entry after the step.
    pub entry: Entry,
    /// What the actor is at after the step.
    pub phase: Phase,
    /// The receipt of an operation that ends with this step.
    pub made: Option<Receipt>,
}
