//! The marks of changed entries: their indexes are written for the caller, and they are cleared.
ghost use Rattle.std.specs.Prelude.{◌≡◌, ◌≤◌, ◌<◌, ◌^◌, length};
ghost use Rattle.papr_c.specs.Taking.{refused_taking, marks_told, slots_after, entries_without, outcome_of_taking, entries_after_taking};

use c_layout::{PaprEntry, is_table};
use hpt_resize::StateHolder;
use papr_codes::Rc;

/// How far entries were asked for their marks.
#[repr(C)]
#[derive(Clone, Copy)]
pub struct PaprTaken {
    /// The return code, as register 3 has it: H_SUCCESS or H_PARAMETER.
    pub rc: i64,
    /// How many indexes were written.
    pub count: u32,
    /// The index from which to go on: the number of entries, where none is left.
    pub next: u32,
}

impl PaprTaken {
    fn ended_at(count: usize, next: usize) -> PaprTaken
        requires few { count < 2 ^ 32 }
        requires small { next < 2 ^ 32 }
        ensures { result ≡ marks_told count next }
    {
        PaprTaken {
            rc: Rc::Success.code(),
            count: count as u32,
            next: next as u32,
        }
    }

    fn refused() -> PaprTaken
        ensures { result ≡ refused_taking }
    {
        PaprTaken {
            rc: Rc::Parameter.code(),
            count: 0,
            next: 0,
        }
    }
}

/// Takes marks from an index on, as far as there are slots for their indexes.
fn take_marks(entries: &mut [PaprEntry], first: usize, indexes: &mut [u32]) -> PaprTaken
    requires inside { first ≤ length entries.old }
    requires few { length entries.old < 2 ^ 32 }
    ensures told { let found =
        Rattle.papr_c.specs.Taking.found entries.old first (length indexes.old) in
        result ≡ marks_told (length found.indexes) found.next }
    ensures indexes { let found =
        Rattle.papr_c.specs.Taking.found entries.old first (length indexes.old) in
        indexes.new ≡ slots_after found indexes.old }
    ensures entries { let found =
        Rattle.papr_c.specs.Taking.found entries.old first (length indexes.old) in
        entries.new ≡ entries_without first found entries.old }
{
    let mut count = 0;
    for index in first..entries.len() {
        if count == indexes.len() {
            return PaprTaken::ended_at(count, index);
        }
        let entry = entries[index];
        if entry.marked {
            indexes[count] = index as u32;
            entries[index] = PaprEntry::of(&entry.state(), false);
            count += 1;
        }
    }
    PaprTaken::ended_at(count, entries.len())
}

/// Writes the indexes of the entries that were changed since their marks were last taken, in
/// ascending order from the index `first` on, until there is no slot more or the table ends, and
/// takes these marks. Nothing else of the entries changes. H_PARAMETER, and nothing changes, where
/// the entries aren't a table of `2^order` bytes or `first` is above their number.
#[unsafe(no_mangle)]
pub extern "C" fn papr_take_changed(
    entries: &mut [PaprEntry],
    order: u8,
    first: u32,
    indexes: &mut [u32],
) -> PaprTaken
    ensures told { (result, indexes.new)
        ≡ outcome_of_taking order entries.old first indexes.old }
    ensures entries { entries.new
        ≡ entries_after_taking order entries.old first (length indexes.old) }
{
    if !is_table(entries, order) || first as usize > entries.len() {
        return PaprTaken::refused();
    }
    take_marks(entries, first as usize, indexes)
}
