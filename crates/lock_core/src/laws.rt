//! What holds over every list of steps of any actors. Each function does nothing, and its contract
//! is the law.

ghost use Rattle.lock_core.specs.Laws.{EveryHistoryIsLegal, EveryReceiptKeepsItsFront, EveryReceiptIsListed, SeenLinesHold, StatesAreInWords, StatesChangeByReceipts};

/// The state that an entry counts with is that of its words, unless it is shut.
pub fn states_are_in_words()
    ensures { StatesAreInWords }
{}

/// A step that makes a receipt replaces the receipt's state before by its state after, and no other
/// step changes the state that an entry counts with.
pub fn states_change_by_receipts()
    ensures { StatesChangeByReceipts }
{}

/// Each entry's history over the receipts of all actors is legal, from its opening state to the
/// state that it counts with: while it is shut, the one from before.
pub fn every_history_is_legal()
    ensures { EveryHistoryIsLegal }
{}

/// No receipt comes before what its actor had come to on that entry, at the step that makes it.
pub fn every_receipt_keeps_its_front()
    ensures { EveryReceiptKeepsItsFront }
{}

/// The receipt that a step makes is put after the receipts that its actor has.
pub fn every_receipt_is_listed()
    ensures { EveryReceiptIsListed }
{}

/// Each line that an actor has seen holds of its entry.
pub fn seen_lines_hold()
    ensures { SeenLinesHold }
{}
