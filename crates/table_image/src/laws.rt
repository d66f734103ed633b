//! The digits of a stored entry are read back as its doublewords. The function does nothing, and
//! its contract is the law.

ghost use Rattle.table_image.specs.Image.{IsReadBack};

/// What [`crate::digits_of`] gives, [`crate::words_of`] gives back, where doubleword 1 is without
/// the bit that H_ENTER clears.
pub fn digits_are_read_back()
    ensures { IsReadBack }
{}
