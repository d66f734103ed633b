//! Laws of windows. Each function does nothing, and its contract is the law.

ghost use Rattle.dma_window.specs.Laws.{BusyExactlyWhereTaken, NeverBusyAlone, TcesHavePages, KeptWordsAreReadBack, UngrantedExactlyWhere, PermittedAccessesLand};

/// H_PUT_TCE answers H_BUSY exactly if its entering has a receipt that says Taken.
pub fn busy_exactly_where_taken()
    ensures { BusyExactlyWhereTaken }
{}

/// On states that nobody else changes H_PUT_TCE never answers H_BUSY.
pub fn never_busy_alone()
    ensures { NeverBusyAlone }
{}

/// H_PUT_TCE empties its entry, or enters a TCE whose page lies in one grant of ram, and makes no
/// other operation.
pub fn tces_have_pages()
    ensures { TcesHavePages }
{}

/// An entry that H_PUT_TCE made keeps the TCE's address and its permissions.
pub fn kept_words_are_read_back()
    ensures { KeptWordsAreReadBack }
{}

/// A device's access that is permitted ends outside the grants exactly if no single grant of ram
/// holds the page of its TCE.
pub fn ungranted_exactly_where()
    ensures { UngrantedExactlyWhere }
{}

/// A device's access ends at a machine address exactly if its TCE permits it, one grant of ram
/// holds the TCE's page, and the grants have the access's logical address there.
pub fn permitted_accesses_land()
    ensures { PermittedAccessesLand }
{}
