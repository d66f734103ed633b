//! Copies of a pattern of text, in which numbers rise from copy to copy.

use crate::miss::Miss;
use std::io::Write;

/// Appends so many copies of a pattern to a text. In it `{8+2}` stands for a number, which is 8 in
/// the first copy and 2 more in each further one; `{0x8+2}` is written in hexadecimal.
pub fn push_copies(out: &mut Vec<u8>, pattern: &str, times: usize) -> Result<(), Miss> {
    for copy in 0..times as u64 {
        for piece in pattern.split('{') {
            push_piece(out, piece, copy)?;
        }
    }
    Ok(())
}

// The number that ends in a piece, if one does, and the text after it.
fn push_piece(out: &mut Vec<u8>, piece: &str, copy: u64) -> Result<(), Miss> {
    let mut text = piece;
    if let Some((number, behind)) = piece.split_once('}') {
        push_number(out, number, copy).ok_or(Miss::Unknown)?;
        text = behind;
    }
    Ok(out.extend_from_slice(text.as_bytes())?)
}

fn push_number(out: &mut Vec<u8>, said: &str, copy: u64) -> Option<()> {
    let (first, step) = said.split_once('+')?;
    let grown = step.parse::<u64>().ok()?.saturating_mul(copy);
    match first.strip_prefix("0x") {
        Some(digits) => {
            let first = u64::from_str_radix(digits, 16).ok()?;
            write!(out, "{:#x}", first.saturating_add(grown)).ok()
        }
        None => {
            let first = first.parse::<u64>().ok()?;
            write!(out, "{}", first.saturating_add(grown)).ok()
        }
    }
}
