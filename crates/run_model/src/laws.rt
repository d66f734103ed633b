//! Laws of the runs of a trace. Each function does nothing, and its contract is the law.

ghost use Rattle.run_model.specs.Laws.{SerialIsGood, ParallelIsGood, SerialIsParallel, GoodSideBySide, SerialIsTheOneGoodRun, NoStoreIsLost, NoSetBitIsLost, ClearingRepliesShow, ResizesKeepBoltedPages, AccessesLandByTheirEntries, DevicesLandByTheirTces, CachedLinesAreCurrentOrGone, MasksRefuseExactlyWhere, ZeroMasksRefuseNothing, NoEntryIsWorn, PutsAreBusyWhereTaken, SerialPutsAreNotBusy, RefusedLinesChangeNothing, RefusedWindowLinesChangeNothing, RefusedResizesChangeNothing, EntriesCanBeEntered, ImagesOpenAgain};

/// The serial run of a trace is a good run.
pub fn serial_is_good()
    ensures { SerialIsGood }
{}

/// A run in which each processor works on its own, on a table that gives each entry one legal
/// history, is a good run.
pub fn parallel_is_good()
    ensures { ParallelIsGood }
{}

/// The serial run of a trace is one in which each processor works on its own.
pub fn serial_is_parallel()
    ensures { SerialIsParallel }
{}

/// A run is good store by store exactly if it is good section by section, with all stores side
/// by side.
pub fn good_side_by_side()
    ensures { GoodSideBySide }
{}

/// A trace of one processor has one good run, the serial one.
pub fn one_good_run()
    ensures { SerialIsTheOneGoodRun }
{}

/// In a good run every store that succeeds shows in a change bit until a reply reports or clears
/// it.
pub fn no_store_is_lost()
    ensures { NoStoreIsLost }
{}

/// In a good run every change bit that is set when a section begins, as those of the opening table
/// are, shows until a reply reports or clears it.
pub fn no_set_bit_is_lost()
    ensures { NoSetBitIsLost }
{}

/// In a good run the reply that clears a change bit shows it: H_REMOVE's in register 5,
/// H_CLEAR_MOD's in register 4, H_BULK_REMOVE's in a pair of the entry.
pub fn clearing_replies_show()
    ensures { ClearingRepliesShow }
{}

/// In a good run a committed resize keeps each bolted page's translation.
pub fn resizes_keep_bolted_pages()
    ensures { ResizesKeepBoltedPages }
{}

/// In a good run each access that is allowed lands where an entry that was then one of its page
/// maps it, in a grant and in no table.
pub fn accesses_land_by_their_entries()
    ensures { AccessesLandByTheirEntries }
{}

/// In a good run each access of a device that is allowed lands where the TCE in its receipt maps
/// the page, in granted main storage and in no table.
pub fn devices_land_by_their_tces()
    ensures { DevicesLandByTheirTces }
{}

/// In a good run a hit is by a cached translation that is current at the hit's place, and a walk
/// goes past a cached translation only where its entry has left the line's stamp.
pub fn cached_lines_are_current_or_gone()
    ensures { CachedLinesAreCurrentOrGone }
{}

/// In a good run an access is refused by a mask exactly if protection allows it by the entry
/// that it ended with, and a mask of its processor refuses it for the entry's key.
pub fn masks_refuse_exactly_where()
    ensures { MasksRefuseExactlyWhere }
{}

/// In a good run of a trace that sets no mask but to 0, no access is refused by a mask.
pub fn zero_masks_refuse_nothing()
    ensures { ZeroMasksRefuseNothing }
{}

/// In a good run no reply is H_HARDWARE.
pub fn no_entry_is_worn()
    ensures { NoEntryIsWorn }
{}

/// In a good run the reply of an H_PUT_TCE is H_BUSY exactly if a receipt of it says Taken.
pub fn puts_are_busy_where_taken()
    ensures { PutsAreBusyWhereTaken }
{}

/// In the serial run no reply of an H_PUT_TCE is H_BUSY.
pub fn serial_puts_are_not_busy()
    ensures { SerialPutsAreNotBusy }
{}

/// In a good run a call, an access or an slbmte that is refused changes no entry, no segment and no
/// cached translation but one that was gone; a bulk removal keeps the pairs that it removed before
/// it was refused.
pub fn refused_lines_change_nothing()
    ensures { RefusedLinesChangeNothing }
{}

/// In a good run a call or a device's access on a window that is refused changes no entry of it; an
/// H_PUT_TCE that ends with H_BUSY or H_HARDWARE has removed the TCE that was there.
pub fn refused_window_lines_change_nothing()
    ensures { RefusedWindowLinesChangeNothing }
{}

/// In a good run a resize call that is refused changes nothing, but that a prepare without memory
/// and a commit on which two entries meet drop the pending table.
pub fn refused_resizes_change_nothing()
    ensures { RefusedResizesChangeNothing }
{}

/// Each valid entry that a serial run comes to is one that H_ENTER could have made.
pub fn reached_entries_can_be_entered()
    ensures { EntriesCanBeEntered }
{}

/// Each valid entry that a serial run comes to, and that a layout can hold, may be in the opening
/// table of another trace with the same grants: an `entry` line with its index and its digits is
/// accepted, and the entry opens with its doublewords, R and C, at stamp 0.
pub fn images_open_again()
    ensures { ImagesOpenAgain }
{}
