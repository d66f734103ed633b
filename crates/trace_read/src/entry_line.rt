//! What an `entry` line is tested for: its layout, a rising index, 32 digits, and doublewords that
//! H_ENTER would store unchanged.
ghost use Rattle.std.specs.Prelude.{◌≡◌};
ghost use Rattle.table_image.specs.Layouts.{entry_words};
ghost use Rattle.trace_read.specs.Configuration.{AreRising};
ghost use Rattle.trace_read.specs.Entries as line;

use crate::forms::is_name;
use frame_grants::Grants;
use page_grants::entered_words;
use table_image::{ImageEntry, Layout, words_of};

/// The layout that a word names.
pub fn layout_named(word: &[u8]) -> Option<Layout>
    ensures { result ≡ line.layout_named word.now }
{
    if is_name(word, "old") {
        Some(Layout::Old)
    } else if is_name(word, "new") {
        Some(Layout::New)
    } else {
        None
    }
}

/// Whether an index is above that of each entry; the last has the highest.
pub fn is_above(entries: &[ImageEntry], index: u64) -> bool
    requires { AreRising entries.now }
    ensures { result ≡ line.is_above entries.now index }
{
    match entries.last() {
        None => true,
        Some(last) => u64::from(last.index) < index,
    }
}

/// The doublewords, in the older layout, that the digits of a layout spell.
pub fn words_spelt(layout: Layout, digits: &[u8]) -> Option<(u64, u64)>
    ensures { result ≡ entry_words layout digits.now }
{
    match <&[u8; 32]>::try_from(digits) {
        Ok(digits) => words_of(layout, digits),
        Err(_) => None,
    }
}

/// Whether H_ENTER would store just these doublewords.
pub fn is_stored(grants: &Grants, dword0: u64, dword1: u64) -> bool
    ensures { result ≡ line.is_stored grants.now.grants (dword0, dword1) }
{
    match entered_words(grants, dword0, dword1) {
        None => false,
        Some((first, second)) => first == dword0 && second == dword1,
    }
}
