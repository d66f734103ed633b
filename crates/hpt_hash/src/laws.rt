//! The base page that an entry translates is the only one. The function does nothing, and its
//! contract is the law.

ghost use Rattle.hpt_hash.specs.Laws.{OnePageOfAnEntry};

/// An entry translates one base page and no other, so none of the other base pages that lie in the
/// same actual page.
pub fn one_page_of_an_entry()
    ensures { OnePageOfAnEntry }
{}
