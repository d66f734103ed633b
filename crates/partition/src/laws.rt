//! Laws of the opening table and of the resize calls. Each function does nothing, and its contract
//! is the law.

ghost use Rattle.partition.specs.Laws.{OpensWithEntries, OpensAgain, CommitPairsCarriedPages, KeptTranslationsArePaired};

/// A partition opens with the entries of its configuration and no other.
pub fn opens_with_entries()
    ensures { OpensWithEntries }
{}

/// The words of an entry, with R and C put back, open as the entry at stamp 0.
pub fn opens_again()
    ensures { OpensAgain }
{}

/// A commit that succeeds keeps each bolted page's translation, and makes no other.
pub fn commit_keeps_translations()
    ensures { CommitPairsCarriedPages }
{}

/// A new table that keeps each bolted page's translation pairs a page with an entry exactly if a
/// bolted entry of the page went there.
pub fn kept_translations_are_paired()
    ensures { KeptTranslationsArePaired }
{}
