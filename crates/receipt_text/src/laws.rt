//! Laws of marks. Each function does nothing, and its contract is the law.

ghost use Rattle.receipt_text.specs.Laws.{MarksAreReadOnce, ReceiptsAreReadBack};

/// A line has the marks of the receipts at its end, and no others.
pub fn receipts_are_read_back()
    ensures marks { ReceiptsAreReadBack }
    ensures once { MarksAreReadOnce }
{}
