//! Laws over any store, for callers with a store of their own. Each function does nothing, and its
//! contract is the law.

ghost use Rattle.run_model.specs.StoreLaws.{RefusedCallsLeaveEntries, ChangesHavePlacesOfTheirOwn};

/// A hypervisor call that is refused leaves the entries of its receipts as they were: but a bulk
/// removal keeps the pairs that it removed before it was refused, and an H_PUT_TCE that ends with
/// H_BUSY or H_HARDWARE has removed the TCE that was there.
pub fn refused_calls_leave_entries()
    ensures { RefusedCallsLeaveEntries }
{}

/// In a legal history of an entry no two receipts that changed it have one place: each receipt
/// after one that changed it has a higher place.
pub fn changes_have_places_of_their_own()
    ensures { ChangesHavePlacesOfTheirOwn }
{}
