//! Laws of the verdict. Each function does nothing, and its contract is the law.

ghost use Rattle.history_check.specs.Laws.{OneRunHasMarks, OneRunHasText, EarlierSectionsStand, GoodRunsAreGood, OneVerdict};

/// At most one good run of a trace has given marks and ways, and at most one a given text.
pub fn at_most_one()
    ensures marks { OneRunHasMarks }
    ensures text { OneRunHasText }
{}

/// A text that begins with that of a good run begins with that of a good run of the trace cut after
/// any quiet line.
pub fn earlier_sections_stand()
    ensures { EarlierSectionsStand }
{}

/// The text of a good run is judged good.
pub fn good_runs_are_good()
    ensures { GoodRunsAreGood }
{}

/// A text has at most one verdict.
pub fn one_verdict()
    ensures { OneVerdict }
{}
