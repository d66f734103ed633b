//! What holds over every list of steps of any callers and any places. Each function does nothing,
//! and its contract is the law.
ghost use Rattle.hardware_walk.specs.Steps.{protocol};
ghost use Rattle.hardware_walk.specs.Laws.{HistoryIsLegal, WordsAreTheState, TranslationsAreCurrent, UsesAreListed, ReceiptsComeLater};
ghost use Rattle.hardware_walk.specs.Bytes.{BytesSetBits};
ghost use Rattle.hardware_walk.specs.Table.{EntriesAreApart, EveryHistoryIsLegal};

/// The receipts of calls and of hardware's accesses, in the order in which they were made, are one
/// legal history of the entry.
pub fn history_is_legal()
    ensures { HistoryIsLegal protocol }
{}

/// While nobody has the lock, the words in memory are the state that the entry counts with.
pub fn words_are_the_state()
    ensures { WordsAreTheState protocol }
{}

/// A translation that a processor keeps is the one that the entry counts with at that moment.
pub fn translations_are_current()
    ensures { TranslationsAreCurrent protocol }
{}

/// Each access that a processor made is in the history at the stamp of that time, or is still to be
/// recorded while the entry has that stamp: no store is lost.
pub fn uses_are_listed()
    ensures { UsesAreListed protocol }
{}

/// An entry of a table is as the steps on it alone leave it.
pub fn entries_are_apart()
    ensures { EntriesAreApart protocol }
{}

/// The receipts of a table, in any order of listing: those of each entry, sorted by place, are a
/// legal history.
pub fn every_history_is_legal()
    ensures { EveryHistoryIsLegal protocol }
{}

/// No receipt that is made after a moment is before what the entry was at that moment.
pub fn receipts_come_later()
    ensures { ReceiptsComeLater protocol }
{}

/// A store of byte 6 or 7 from the doubleword that the walk read sets R or C, and nothing else.
pub fn bytes_set_bits()
    ensures { BytesSetBits }
{}
