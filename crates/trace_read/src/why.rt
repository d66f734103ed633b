//! Refusals of a line, each with the word that is written for it, and those of grants among them.
ghost use Rattle.std.specs.Prelude.{◌≡◌};
ghost use Rattle.trace_read.specs.Whys.{why_word, why_of_grant};

use frame_grants::GrantError;

/// Why a line is refused, in the order in which the reasons are tried.
#[derive(Clone, Copy, PartialEq, Eq, Debug)]
pub enum Why {
    /// The input has more than 2^24 bytes; reported as line 0.
    Long,
    /// The input has more than 2^17 lines.
    Lines,
    /// A byte is neither tab nor printable ASCII.
    Ascii,
    /// The line names no partition, or what it may not set. No reading of one trace gives this.
    Lpar,
    /// The line begins with no word of any form.
    Word,
    /// The line may not come at this place.
    Place,
    /// There are too few or too many words.
    Count,
    /// A word where a number is due isn't one.
    Number,
    /// A mode is neither `priv` nor `user`.
    Mode,
    /// There is no such processor.
    Cpu,
    /// This is the 17th `dump`.
    Dumps,
    /// This is the 257th quiet line.
    Quiet,
    /// A value of `order`, `limit`, `cpus` or `pool` isn't accepted.
    Range,
    /// The grant has no byte.
    Empty,
    /// An address or the length of the grant is no multiple of 4,096.
    Unaligned,
    /// A range of the grant ends above 2^60.
    Past,
    /// There are 64 grants already.
    Many,
    /// The grant meets another grant.
    Overlap,
    /// The grant meets the pool of page tables.
    Tables,
    /// The words of `entry` name no entry that the opening table can have after the earlier ones.
    Entry,
    /// The numbers of `window` make no window, its number is an earlier window's, or there are four
    /// windows already.
    Window,
    /// At `begin`, the pool has no room for the opening table.
    Small,
    /// The input ended without `begin`; reported one past the last line.
    Begin,
}

impl Why {
    /// The word that the program writes.
    pub fn word(&self) -> &'static str
        ensures { result.now ≡ why_word self.now }
    {
        match self {
            Why::Long => "long",
            Why::Lines => "lines",
            Why::Ascii => "ascii",
            Why::Lpar => "lpar",
            Why::Word => "word",
            Why::Place => "place",
            Why::Count => "count",
            Why::Number => "number",
            Why::Mode => "mode",
            Why::Cpu => "cpu",
            Why::Dumps => "dumps",
            Why::Quiet => "quiet",
            Why::Range => "range",
            Why::Empty => "empty",
            Why::Unaligned => "unaligned",
            Why::Past => "past",
            Why::Many => "many",
            Why::Overlap => "overlap",
            Why::Tables => "tables",
            Why::Entry => "entry",
            Why::Window => "window",
            Why::Small => "small",
            Why::Begin => "begin",
        }
    }
}

/// The reason of a grant that is refused.
pub fn grant_why(error: GrantError) -> Why
    ensures { result ≡ why_of_grant error }
{
    match error {
        GrantError::Empty => Why::Empty,
        GrantError::Unaligned => Why::Unaligned,
        GrantError::Past => Why::Past,
        GrantError::TooMany => Why::Many,
        GrantError::Overlap => Why::Overlap,
        GrantError::PoolOverlap => Why::Tables,
    }
}
