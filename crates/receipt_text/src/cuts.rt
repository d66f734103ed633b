//! Where a text is cut: a line at its first space and bar, words at their first space, and any text
//! at a given byte.
ghost use Rattle.std.specs.Prelude.{◌≡◌, ◌++◌, ◌∷◌, true, Some, None, IfSome, IfNone};
ghost use Rattle.receipt_text.specs.Cuts.{lacks, words_left};
ghost use Rattle.receipt_text.specs.Marks as marks;

/// Whether these bytes begin with a space and a bar.
fn is_bar(first: u8, others: &[u8]) -> bool
    ensures { result ≡ marks.is_bar first others.now }
{
    match others.first() {
        Some(second) => first == b' ' && *second == b'|',
        None => false,
    }
}

/// What follows the first space and bar of a line.
pub fn behind_bar(line: &[u8]) -> Option<&[u8]>
    ensures some { IfSome result (λ rest. marks.behind_bar line.now ≡ Some rest.now) }
    ensures none { IfNone result (marks.behind_bar line.now ≡ None) }
{
    let mut rest = line;
    while let Some((first, others)) = rest.split_first() {
        if is_bar(*first, others) {
            return Some(&others[1..]);
        }
        rest = others;
    }
    None
}

/// What a text has before the first such byte, and what it has after it.
pub fn split_at(text: &[u8], byte: u8) -> Option<(&[u8], &[u8])>
    ensures lacks { IfSome result (λ parts. lacks byte parts.0.now ≡ true) }
    ensures parts { IfSome result (λ parts. text.now ≡ parts.0.now ++ byte ∷ parts.1.now) }
    ensures none { IfNone result (lacks byte text.now ≡ true) }
{
    for (i, c) in text.iter().enumerate() {
        if *c == byte {
            return Some((&text[..i], &text[i + 1..]));
        }
    }
    None
}

/// The first of words with one space between each two, and the others.
pub fn first_word(words: &[u8]) -> (&[u8], Option<&[u8]>)
    ensures word { lacks 32 result.0.now ≡ true }
    ensures parts { words.now ≡ result.0.now ++ words_left result.1 }
{
    match split_at(words, b' ') {
        Some((word, others)) => (word, Some(others)),
        None => (words, None),
    }
}
