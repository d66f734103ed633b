//! The input of `check`, cut at its line `replies`, and the count of an input's lines.
ghost use Rattle.std.specs.Prelude.{◌≡◌, ◌≤◌, ◌+◌, ◌^◌, length, IfSome, IfNone, Some, None};
ghost use Rattle.trace_read.specs.TextLines.{raw_lines};
ghost use Rattle.papr_edge.specs.Inputs.{is_replies_line, cut_of};
ghost use Rattle.trace_read.specs.Grammar.{most_bytes};

use trace_read::{drop_cr, lines_of, split_line};

/// The line between a trace and the text that is to be judged as its replies.
const REPLIES: &str = "replies";

fn is_replies(line: &[u8]) -> bool
    ensures { result ≡ is_replies_line line.now }
{
    drop_cr(line) == REPLIES.as_bytes()
}

/// The bytes of the trace and those of the text after it, where a line `replies` parts them.
#[tactic(auto, unfolding(crate::specs::Inputs::cut_of))]
pub fn cut(bytes: &[u8]) -> Option<(&[u8], &[u8])>
    ensures some { IfSome result (λ parts. cut_of bytes.now ≡ Some (parts.0.now, parts.1.now)) }
    ensures none { IfNone result (cut_of bytes.now ≡ None) }
{
    let mut start = 0;
    let mut rest = Some(bytes);
    while let Some(text) = rest {
        let (line, after) = split_line(text);
        if is_replies(line) {
            return Some((&bytes[..start], after.unwrap_or(&[])));
        }
        start += line.len() + 1;
        rest = after;
    }
    None
}

/// How many lines an input has.
pub fn line_count(bytes: &[u8]) -> u32
    requires { length bytes.now ≤ most_bytes }
    ensures count { result ≡ length (raw_lines bytes.now) }
    ensures few { result ≤ most_bytes + 1 }
{
    let mut count = 0;
    let mut rest = lines_of(bytes);
    while let Some(text) = rest {
        let (_, after) = split_line(text);
        count += 1;
        rest = after;
    }
    count
}
