//! Laws of replies, and of receipts in histories. Each function does nothing, and its contract is
//! the law.

ghost use Rattle.entry_model.specs.Laws.{AccessesOnlyRaiseBits, OnlyAtTouches, EmptyStaysEmpty, StillAccessesStayStill, OthersRaiseStamps, OthersIgnoreBits, DecidedIsValid, MaskedExactlyWhere, ZeroMasksChangeNothing, RepliesStayCanonical, StampsStayLow, PlacesCompareFromTheLeft, LoggedHistoriesAreLegal, FrontsCompose, FrontsNeverFall, ReceiptsOfGoneLinesAreLater};

/// An access leaves an entry's doublewords and its stamp, and lowers no bit.
pub fn accesses_only_raise_bits()
    ensures { AccessesOnlyRaiseBits }
{}

/// An access that isn't At changes nothing.
pub fn only_at_touches()
    ensures { OnlyAtTouches }
{}

/// An access of an entry that isn't valid changes nothing.
pub fn empty_stays_empty()
    ensures { EmptyStaysEmpty }
{}

/// Where an access leaves a state as it is, it leaves the state with further bits as it is too, and
/// has the same answer there.
pub fn still_accesses_stay_still()
    ensures { StillAccessesStayStill }
{}

/// Every other operation leaves the state as it is, or raises the stamp by one.
pub fn others_raise_stamps()
    ensures { OthersRaiseStamps }
{}

/// Whether another operation than an access changes an entry doesn't depend on R and C.
pub fn others_ignore_bits()
    ensures { OthersIgnoreBits }
{}

/// At, Masked and Denied come only on a valid entry.
pub fn decided_is_valid()
    ensures { DecidedIsValid }
{}

/// An access is answered Masked exactly if the entry translates its page, protection allows it,
/// and a mask of its processor refuses it for the entry's key.
pub fn masked_exactly_where()
    ensures { MaskedExactlyWhere }
{}

/// Where both masks are 0, the answer is the one of protection alone.
pub fn zero_masks_change_nothing()
    ensures { ZeroMasksChangeNothing }
{}

/// Every operation keeps R and C apart, and an entry that isn't valid without words and bits.
pub fn replies_stay_canonical()
    ensures { RepliesStayCanonical }
{}

/// Stamps stay below `2^32`.
pub fn stamps_stay_low()
    ensures { StampsStayLow }
{}

/// Places of receipts compare by the stamp before, then by the number of bits before, and then what
/// changes nothing comes first.
pub fn places_compare_from_the_left()
    ensures { PlacesCompareFromTheLeft }
{}

/// Receipts of an entry that were made one after the other are a legal history, however all
/// receipts are listed.
pub fn logged_histories_are_legal()
    ensures { LoggedHistoriesAreLegal }
{}

/// Receipts that keep fronts may be put one after the other.
pub fn fronts_compose()
    ensures { FrontsCompose }
{}

/// Receipts that keep fronts lower none.
pub fn fronts_never_fall()
    ensures { FrontsNeverFall }
{}

/// Receipts of an entry whose front is past a line's stamp come after the line.
pub fn receipts_of_gone_lines_are_later()
    ensures { ReceiptsOfGoneLinesAreLater }
{}
