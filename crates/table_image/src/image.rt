//! The text of a whole table: a line with the layout, the order and the count, then a line for each
//! entry.
ghost use Rattle.std.specs.Prelude.{◌≡◌, ◌++◌, IsAscii, IfErr, IfOk, OnOk, string_bytes, length};
ghost use Rattle.table_image.specs.Image.{TellsOf, layout_word, image_head, digits_line, image_of};

use crate::digits::digits_of;
use crate::entry::ImageEntry;
use crate::error::ImageError;
use crate::layout::Layout;
use number_text::{put_decimal, put_hexadecimal};
use std::alloc::{AllocError, Global};
use std::marker::Model;

/// The image of a table, which is a text of lines.
#[derive(Drop)]
pub struct ImageText {
    text: String,
}

impl Model for ImageText {
    ghost use Rattle.std.specs.Prelude.{ℕ, List, string_bytes};

    ghost Value = { List ℕ };

    ghost view = { λ i. string_bytes i.text };
}

impl ImageText {
    /// Its bytes.
    pub fn as_bytes(&self) -> &[u8]
        ensures { result.now ≡ self.now }
    {
        self.text.as_bytes()
    }
}

/// The word of a layout.
fn word_of(layout: Layout) -> &'static str
    ensures { result.now ≡ layout_word layout }
{
    match layout {
        Layout::Old => "old",
        Layout::New => "new",
    }
}

/// Appends the image's first line.
#[tactic(auto, unfolding(crate::specs::Image::image_head))]
fn put_head(out: &mut String, layout: Layout, order: u8, count: usize) -> Result<(), AllocError>
    ensures { OnOk
        result
        (string_bytes out.new ≡ string_bytes out.old ++ image_head layout order count) }
{
    out.push_str("image ")?;
    out.push_str(word_of(layout))?;
    put_decimal(out, " order ", u64::from(order))?;
    put_decimal(out, " entries ", count as u64)?;
    out.push_str("\n")
}

/// Appends the line of an entry.
fn put_line(out: &mut String, index: u32, digits: &[u8; 32]) -> Result<(), AllocError>
    requires { IsAscii digits.now }
    ensures { OnOk
        result
        (string_bytes out.new ≡ string_bytes out.old ++ digits_line index digits.now) }
{
    put_hexadecimal(out, "", u64::from(index))?;
    out.push_str(" ")?;
    out.push_str(unsafe { std::str::from_utf8_unchecked(digits.as_slice()) })?;
    out.push_str("\n")
}

/// The image of a table of `2^order` bytes with these valid entries, in this layout: a line with
/// the layout, the order and how many entries there are, and for each entry a line of its index and
/// its digits ([`digits_of`]). The lines are in the order in which the entries are listed.
///
/// [`ImageError::Layout`] names the first entry that the layout can't hold; [`ImageError::Memory`]
/// comes where memory ends.
pub fn image_text(
    alloc: Global,
    layout: Layout,
    table: &[ImageEntry],
    order: u8,
) -> Result<ImageText, ImageError>
    ensures text { IfOk result (λ text. image_of layout order table.now ≡ Ok text) }
    ensures refused { IfErr result (λ error. TellsOf error (image_of layout order table.now)) }
{
    let mut text = String::new(alloc);
    put_head(&mut text, layout, order, table.len())?;
    for entry in table {
        let Some(digits) = digits_of(layout, entry.dword0, entry.dword1) else {
            return Err(ImageError::Layout { index: entry.index });
        };
        put_line(&mut text, entry.index, &digits)?;
    }
    Ok(ImageText { text })
}
