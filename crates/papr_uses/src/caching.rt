//! A caller of `tlb_model`: a translation that is filled is found, and gone after it is dropped.
ghost use Rattle.std.specs.Prelude.{◌≡◌, Some};
ghost use Rattle.tlb_model.specs.Cache.{empty_cache};

use entry_model::Line;
use tlb_model::Tlb;

/// Fills an empty cache with one line, asks for the line's page, and drops the line: it is found,
/// and then the cache is empty again.
pub fn fill_and_drop(tlb: &mut Tlb, line: Line) -> Option<Line>
    ensures found { result ≡ Some line }
    ensures again { tlb.new ≡ empty_cache }
{
    tlb.clear();
    tlb.fill(line);
    let found = tlb.find(&line.page);
    tlb.drop_line(&line.page);
    found
}
