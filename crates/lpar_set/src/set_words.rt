//! The words by which a line of a set differs from one of a single partition: the partition's
//! number, and the words `pool`, `window` and `entry`, which are refused.
ghost use Rattle.std.specs.Prelude.{◌≡◌, ◌<◌, IfOk};
ghost use Rattle.trace_read.specs.TextLines.{texts};
ghost use Rattle.lpar_set.specs.SetGrammar as sets;

use trace_read::{Why, is_name, number};

/// The number of the partition that a first word names, which is below 8.
pub fn partition_named(word: &[u8]) -> Result<u8, Why>
    ensures value { result ≡ sets.partition_named word.now }
    ensures below { IfOk result (λ number. number < 8) }
{
    match number(word) {
        Some(number) if number < 8 => Ok(number as u8),
        _ => Err(Why::Lpar),
    }
}

/// Whether the first of the words after a number is one that no line of a set may have there.
pub fn is_of_the_whole(words: &[&[u8]]) -> bool
    ensures { result ≡ sets.is_of_the_whole (texts words.now) }
{
    match words.first() {
        None => false,
        Some(word) => is_name(word, "pool") || is_name(word, "window") || is_name(word, "entry"),
    }
}
