//! An input cut into lines, and a line into words: LF, one CR before it, tabs and spaces, and
//! remarks.
ghost use Rattle.std.specs.Prelude.{◌≡◌, ◌≤◌, true, ◌∷◌, ◌++◌, length, take, vec_len, OnOk, OnErr, MatchOption};
ghost use Rattle.std.specs.List.{slice_split, list_all, position_or_len};
ghost use Rattle.trace_read.specs.TextLines.{is_lf, is_printable, raw_lines, without_cr, words_of, is_remark, texts};
ghost use Rattle.trace_read.specs.Rest.{parts_left, rest_size};

use memchr::memchr;
use std::alloc::AllocError;

/// The lines of an input that are still to be read, if there are any: one LF at its end ends the
/// last.
pub fn lines_of(bytes: &[u8]) -> Option<&[u8]>
    ensures { parts_left result ≡ raw_lines bytes.now }
{
    match bytes {
        [] => None,
        [front @ .., b'\n'] => Some(front),
        _ => Some(bytes),
    }
}

/// Where the first LF is, or the length where there is none.
fn line_end(text: &[u8]) -> usize
    ensures { result ≡ position_or_len is_lf text.now }
{
    memchr(b'\n', text).unwrap_or(text.len())
}

/// The first line, and what follows its LF; `None` where no LF ends it.
pub fn split_line(text: &[u8]) -> (&[u8], Option<&[u8]>)
    ensures parts { slice_split is_lf text.now ≡ result.0.now ∷ parts_left result.1 }
    ensures whole { MatchOption
        result.1
        (text.now ≡ result.0.now)
        (λ rest. text.now ≡ result.0.now ++ 10 ∷ rest.now) }
    ensures shorter { rest_size result.1 ≤ length text.now }
{
    let end = line_end(text);
    if end < text.len() {
        (&text[..end], Some(&text[end + 1..]))
    } else {
        (text, None)
    }
}

/// A line without one CR at its end.
pub fn drop_cr(line: &[u8]) -> &[u8]
    ensures { result.now ≡ without_cr line.now }
{
    match line {
        [front @ .., b'\r'] => front,
        _ => line,
    }
}

/// Whether a line has tabs and printable ASCII alone. No byte ends the loop early, so that the
/// compiler can test many at a time.
pub fn is_text(line: &[u8]) -> bool
    ensures { result ≡ list_all is_printable line.now }
{
    let mut text = true;
    for c in line {
        text &= (*c == b'\t') | ((b' ' <= *c) & (*c <= b'~'));
    }
    text
}

/// Replaces the words in a list by those of a line of text. Where there is no memory for all of
/// them, the list has the first.
pub fn read_words<'a>(words: &mut Vec<&'a [u8]>, line: &'a [u8]) -> Result<(), AllocError>
    requires { list_all is_printable line.now ≡ true }
    ensures ok { OnOk result (texts words.new.items ≡ words_of line.now) }
    ensures err { OnErr result
        (texts words.new.items ≡ take (vec_len words.new) (words_of line.now)) }
{
    words.clear();
    let mut start = 0;
    for (i, c) in line.iter().enumerate() {
        // Of a text's bytes, tab and space alone are no higher than this.
        if *c <= b' ' {
            if start < i {
                words.push(&line[start..i])?;
            }
            start = i + 1;
        }
    }
    if start < line.len() {
        words.push(&line[start..])?;
    }
    Ok(())
}

/// Whether a line with these words is a remark.
pub fn is_remark_line(words: &[&[u8]]) -> bool
    ensures { result ≡ is_remark (texts words.now) }
{
    match words.first() {
        None => true,
        Some(first) => first.len() > 0 && first[0] == b'#',
    }
}
