//! The words of the program from the caller's bytes: empty ones are left out, and what is no UTF-8
//! is replaced.
ghost use Rattle.std.specs.Prelude.{◌≡◌, ◌++◌, OnOk, IfOk};
ghost use Rattle.papr_bytes.specs.Calls.{spelt, word_of, words_named};

use std::alloc::{AllocError, Global};

/// Puts a word after the others, unless it is empty.
fn push_word(alloc: Global, words: &mut Vec<String>, word: &[u8]) -> Result<(), AllocError>
    ensures { OnOk result (spelt words.new.items ≡ spelt words.old.items ++ word_of word.now) }
{
    if word.len() > 0 {
        words.push(String::from_utf8_lossy(alloc, word)?)?;
    }
    Ok(())
}

/// The words of a call.
pub fn words_in(
    alloc: Global,
    first: &[u8],
    second: &[u8],
    third: &[u8],
) -> Result<Vec<String>, AllocError>
    ensures { IfOk result (λ v. spelt v.items ≡ words_named first.now second.now third.now) }
{
    let mut words = Vec::new(alloc);
    push_word(alloc, &mut words, first)?;
    push_word(alloc, &mut words, second)?;
    push_word(alloc, &mut words, third)?;
    Ok(words)
}
