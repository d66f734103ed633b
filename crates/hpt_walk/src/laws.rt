//! Laws of accesses and walks: which entries they use, what they change, what masks refuse, and
//! what can be cached. Each function does nothing, and its contract is the law.

ghost use Rattle.hpt_walk.specs.Laws.{AccessTellsPage, OtherPagesDontMatch, AddressesLieInActualPages, WalksUseTheirPage, HitsUseTheirPage, OnlyAtChangesEntries, MaskedExactlyWhereRefused, ZeroMasksRefuseNoAccess, WalkFindsFirst, WalksGiveLines, LinesMatchAccesses, CurrentLinesDecide};

/// An access of a page, made on an entry of one of the page's two groups with H to match, answers
/// NoMatch exactly if the entry isn't one of the page.
pub fn access_tells_page()
    ensures { AccessTellsPage }
{}

/// An access of another page than the entry's is answered NoMatch, also where both are base pages
/// of the actual page that the entry maps.
pub fn other_pages_dont_match()
    ensures { OtherPagesDontMatch }
{}

/// The address of an access lies in the actual page that the entry maps, at the effective
/// address's offset in a page of that size.
pub fn addresses_lie_in_actual_pages()
    ensures { AddressesLieInActualPages }
{}

/// In a walk of a page, an answer that used an entry's translation used one of an entry of the
/// page.
pub fn walks_use_their_page()
    ensures { WalksUseTheirPage }
{}

/// A hit by a line whose entry is in its page's group uses an entry that was one of the page.
pub fn hits_use_their_page()
    ensures { HitsUseTheirPage }
{}

/// An access without a receipt that says At changes no entry, however many entries it asked.
pub fn only_at_changes_entries()
    ensures { OnlyAtChangesEntries }
{}

/// An access ends refused by a mask exactly if protection allows it by the entry that it ended
/// with, and the mask refuses it for the entry's key.
pub fn masked_exactly_where_refused()
    ensures { MaskedExactlyWhereRefused }
{}

/// Where both masks are 0, no receipt of an access says Masked.
pub fn zero_masks_refuse_no_access()
    ensures { ZeroMasksRefuseNoAccess }
{}

/// Over a table that nobody else changes, a walk finds the first entry, in walk order, that
/// translates the page.
pub fn walk_finds_first()
    ensures { WalkFindsFirst }
{}

/// What a walk found can be cached: the entry's words translate the page.
pub fn walks_give_lines()
    ensures { WalksGiveLines }
{}

/// An access of its page by a line matches the line.
pub fn lines_match_accesses()
    ensures { LinesMatchAccesses }
{}

/// An access that matches a line is never answered NoMatch while the line is current.
pub fn current_lines_decide()
    ensures { CurrentLinesDecide }
{}
