//! The doublewords of an entry at a stamp, by the translations that an actor has seen and by the
//! opening state.
ghost use Rattle.std.specs.Prelude.{◌≡◌, find};
ghost use Rattle.lock_core.specs.Machine.{words_seen_in as seen_in_of, words_at as words_at_of, is_at as is_at_of};

use entry_model::EntryState;
use lock_core::Sighting;

/// The doublewords of an entry that was valid at a stamp.
fn words_at(state: &EntryState, stamp: u32) -> Option<(u64, u64)>
    ensures { result ≡ words_at_of state.now stamp }
{
    if state.valid && state.stamp == stamp {
        Some((state.dword0, state.dword1))
    } else {
        None
    }
}

/// Whether the line is one of an entry at a stamp.
fn is_at(line: &Sighting, entry: u32, stamp: u32) -> bool
    ensures { result ≡ is_at_of entry stamp line.now }
{
    line.entry == entry && line.stamp == stamp
}

/// The first line of an entry at a stamp.
fn line_at(lines: &[Sighting], entry: u32, stamp: u32) -> Option<Sighting>
    ensures { result ≡ find (is_at_of entry stamp) lines.now }
{
    lines.iter().copied().find(|line| is_at(line, entry, stamp))
}

/// The doublewords of an entry at a stamp, as who has these lines has seen them: in one of the
/// lines, or in the entry's opening state.
#[tactic(auto, unfolding(lock_core::specs::Machine::words_seen_in))]
pub fn seen_in(lines: &[Sighting], start: &EntryState, entry: u32, stamp: u32) -> Option<(u64, u64)>
    ensures { result ≡ seen_in_of lines.now start.now entry stamp }
{
    match line_at(lines, entry, stamp) {
        Some(line) => Some((line.dword0, line.dword1)),
        None => words_at(start, stamp),
    }
}
