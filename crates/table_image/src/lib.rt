//! Images of page tables: an entry's doublewords as digits in the layout of the Power ISA, version
//! 2.07, and in that of version 3.0, and the text of a whole table.
//!
//! Main contracts: `digits_of`, `words_of`: an entry's digits, or none if the layout can't hold it,
//! and back (`digits_are_read_back`); `image_text`: the text, or the first entry that the layout
//! can't hold.
#![tactic(auto)]

mod digits;
mod entry;
mod error;
mod image;
mod laws;
mod layout;

pub use digits::{digits_of, from_layout, in_layout, words_of};
pub use entry::ImageEntry;
pub use error::ImageError;
pub use image::{ImageText, image_text};
pub use laws::digits_are_read_back;
pub use layout::Layout;
