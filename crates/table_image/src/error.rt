//! The two failures of an image: an entry that the layout can't hold, and lack of memory.
use std::alloc::AllocError;

/// Why there is no image.
#[derive(Clone, Copy, PartialEq, Eq, Debug)]
pub enum ImageError {
    /// The layout can't hold an entry: its index, the first such.
    Layout {
        /// The entry's index in the table.
        index: u32,
    },
    /// There is not enough memory.
    Memory,
}

impl From<AllocError> for ImageError {
    ghost use Rattle.std.specs.Prelude.{◌≡◌};
    ghost use Rattle.table_image.specs.declared.error.ImageError.TheVariants.{Memory};

    ghost from_gives = { λ _ error. error ≡ Memory };

    fn from(_: AllocError) -> Self {
        ImageError::Memory
    }
}
