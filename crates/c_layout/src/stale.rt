//! Whether cached translations have to be dropped, by the answers of the operations that were made.
ghost use Rattle.std.specs.Prelude.{◌≡◌, ◌||◌, false};
ghost use Rattle.std.specs.Option.{option_map_or};
ghost use Rattle.c_layout.specs.Stale as spec;

use entry_model::{Answer, Receipt};

/// Whether a cached translation by an entry may no longer hold after this answer.
#[inline]
pub fn is_stale(answer: Answer) -> bool
    ensures { result ≡ spec.is_stale answer }
{
    matches!(answer, Answer::Removed | Answer::Protected | Answer::Was)
}

/// Whether one may no longer hold after two operations with these answers.
#[inline]
pub fn either_stale(first: Answer, second: Answer) -> bool
    ensures { result ≡ (spec.is_stale first || spec.is_stale second) }
{
    is_stale(first) || is_stale(second)
}

/// Whether one may no longer hold after the operation that ended a trial.
#[inline]
pub fn ends_stale(ending: &Option<Receipt>) -> bool
    ensures { result ≡ option_map_or (λ r. spec.is_stale r.answer) ending.now false }
{
    match ending {
        Some(receipt) => is_stale(receipt.answer),
        None => false,
    }
}

/// Whether one may no longer hold after operations with these receipts.
#[inline]
#[tactic(auto, unfolding(crate::specs::Stale::any_stale))]
pub fn any_stale(receipts: &[Receipt]) -> bool
    ensures { result ≡ spec.any_stale receipts.now }
{
    receipts.iter().any(|receipt| is_stale(receipt.answer))
}
