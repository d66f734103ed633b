//! Laws of lines that are given with their numbers. Each function does nothing, and its contract is
//! the law.

ghost use Rattle.trace_read.specs.ReaderLaws.{ReadsAsTheInput, RefusesAsTheInput, TextIsReadByWords};
ghost use Rattle.trace_read.specs.RefusalLaws.{TablesNameAGrant, NoneIsRefusedForAPartition};

/// Lines that a [`crate::TraceReader`] is given with rising numbers are read just as the whole
/// input that has these lines at their numbers and a remark at each number between: both give the
/// same trace, or refuse the same line for the same reason. So does a further line after accepted
/// ones.
pub fn reads_as_the_input()
    ensures whole { ReadsAsTheInput }
    ensures further { RefusesAsTheInput }
{}

/// A line of text is read as its words are: what [`crate::TraceReader::line`] makes of it, and what
/// [`crate::TraceReader::words`] does.
pub fn text_is_read_by_words()
    ensures { TextIsReadByWords }
{}

/// A line that is refused since it meets the pool of page tables names a grant, so that
/// [`crate::LineRefused`] has one just with this reason.
pub fn tables_name_a_grant()
    ensures { TablesNameAGrant }
{}

/// No input of one trace is refused for a partition.
pub fn none_is_refused_for_a_partition()
    ensures { NoneIsRefusedForAPartition }
{}
