//! Laws of the runs of sets. Each function does nothing, and its contract is the law.

ghost use Rattle.lpar_set.specs.PartitionLaws.{SetsAreOfTheirLines, LinesHaveOneSet, RefusalsAreReasons, LowestLinesComeFirst};
ghost use Rattle.lpar_set.specs.SetLaws.{SetsAreAssured};

/// In the run of a set each partition's accesses land in its own machine memory alone. Up to its
/// first H_NO_MEM its replies are those of its own trace with the whole pool to itself, but the
/// place in a dump, and assure what good runs do.
pub fn sets_are_assured()
    ensures { SetsAreAssured }
{}

/// The set that an input is accepted as is that of its lines: over the shared pool, of the
/// partitions that begin, each with the trace that its own lines give where they lose their first
/// word and all other lines are remarks, and with the run lines of all in file order.
pub fn sets_are_of_their_lines()
    ensures { SetsAreOfTheirLines }
{}

/// No other accepted set is that of these lines.
pub fn lines_have_one_set()
    ensures { LinesHaveOneSet }
{}

/// What an input is refused for at a line may be said against it: the line is not allowed in the
/// set, or a partition's own lines are refused there. An input against which anything may be said
/// is refused, at that line or at one before it.
pub fn refusals_are_of_their_lines()
    ensures reasons { RefusalsAreReasons }
    ensures lowest { LowestLinesComeFirst }
{}
