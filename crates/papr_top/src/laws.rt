//! Laws of what the program writes. Each function does nothing, and its contract is the law.

ghost use Rattle.papr_top.specs.Laws.{WrittenTextsAreGood};
ghost use Rattle.papr_top.specs.ImageLines.{ImageLinesOpenAgain};

use run_model::images_open_again;

/// What the program writes under `run` or `par` with [`Status::Done`](papr_edge::Status::Done), it
/// judges good under `check`.
pub fn written_texts_are_good()
    ensures { WrittenTextsAreGood }
{}

/// Each valid entry of a table that a serial run comes to, by its line in an image whose layout can
/// hold it, opens again: after `entry` and the word of the layout the line is accepted among the
/// bytes of another trace, with the same grants and that table's order, whose table opens with the
/// entry.
pub fn image_lines_open_again()
    ensures { ImageLinesOpenAgain }
{
    images_open_again();
}
