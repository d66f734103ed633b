//! Where an entry's control word and its two data words are in the table, whose word 0 is no
//! entry's.
ghost use Rattle.std.specs.Prelude.{◌≡◌};
ghost use Rattle.entry_lock.specs.Layout.{data_place};

/// The words of one entry. Word 0 of the table belongs to none, and serves splits and joins.
pub const WORDS_PER_ENTRY: usize = 3;

/// The control word, counted from the entry's words on.
pub const CONTROL: usize = 1;

/// The first data word, as CONTROL.
pub const FIRST: usize = 2;

/// The second data word.
pub const SECOND: usize = 3;

/// The index in the table of an entry's first or second data word.
pub fn data_index(entry: u32, second: bool) -> usize
    ensures { result ≡ data_place entry second }
{
    if second {
        WORDS_PER_ENTRY * entry as usize + SECOND
    } else {
        WORDS_PER_ENTRY * entry as usize + FIRST
    }
}
