//! Laws of the library. Each function does nothing, and its contract is the law.

ghost use Rattle.papr_c.specs.Decoding.{TagsFitPages, NoCauseExactlyAtPages, BaseSizesAreThePages};
ghost use Rattle.papr_c.specs.ResizeLaw.{IsPrepareOfPool, IsCommitOfPool};
ghost use Rattle.papr_c.specs.RightsLaws.{RightsAreWhatStays, NoCauseExactlyWhereAllowed};
ghost use Rattle.papr_c.specs.StaleLaw.{UnstaleKeepsTranslations};
ghost use Rattle.papr_c.specs.Taking.{EachMarkIsToldOnce};
ghost use Rattle.papr_c.specs.TransferLaw.{IsRoundTrip};
ghost use Rattle.papr_c.specs.Walks.{ProbesAgreeWithWalks};

/// An access has the right exactly if the entry of its page would allow it and stay as it is.
pub fn rights_are_what_stays()
    ensures { RightsAreWhatStays }
{}

/// The entry of a page allows an access exactly if no cause against it holds.
pub fn no_cause_exactly_where_allowed()
    ensures { NoCauseExactlyWhereAllowed }
{}

/// A probe finds what a walk of the same entries finds, except for R and C.
pub fn probes_agree_with_walks()
    ensures { ProbesAgreeWithWalks }
{}

/// Where a reply isn't stale, each entry that was valid has the words that it had, and R and C were
/// at most set.
pub fn unstale_keeps_translations()
    ensures { UnstaleKeepsTranslations }
{}

/// A tag fits a base page size exactly if a page of that size has the tag.
pub fn tags_fit_pages()
    ensures { TagsFitPages }
{}

/// The number of the reason is 0 exactly if doublewords translate a page at an index in range.
pub fn no_cause_exactly_at_pages()
    ensures { NoCauseExactlyAtPages }
{}

/// Where doublewords translate a page, the base page size that they are decoded to is the page's.
pub fn base_sizes_are_the_pages()
    ensures { BaseSizesAreThePages }
{}

/// `papr_resize_prepare` is H_RESIZE_HPT_PREPARE over a pool that has a block for a table exactly
/// if memory for it is lent.
pub fn prepares_as_over_a_pool()
    ensures { IsPrepareOfPool }
{}

/// `papr_resize_commit` is H_RESIZE_HPT_COMMIT over any pool.
pub fn commits_as_over_a_pool()
    ensures { IsCommitOfPool }
{}

/// What `papr_export` writes of an entry, `papr_import` makes the same entry of, except for its
/// stamp.
pub fn entries_come_back()
    ensures { IsRoundTrip }
{}

/// Where `papr_take_changed` is called until the end, with no other call between, the index of each
/// marked entry is written once, and no mark is left.
pub fn each_mark_is_told_once()
    ensures { EachMarkIsToldOnce }
{}
