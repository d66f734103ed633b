//! The rehash of one lent table into another: bolted entries are carried over, and where two would
//! meet the new table is left empty.
ghost use Rattle.std.specs.Prelude.{◌≡◌, ◌≤◌, length};
ghost use Rattle.hpte_fields.specs.TableSize.{IsTableOrder, entry_count};
ghost use Rattle.hpt_resize.specs.Rehash.{collision_of};
ghost use Rattle.papr_c.specs.Rehash.{refused_rehash, rehash_told, table_after, outcome_of_rehash, emptied_between, wiped_entries, entries_after, rehashed_entries};
ghost use Rattle.c_layout.specs.Entries.{states_of};

use c_layout::{PaprEntry, is_table};
use entry_model::EntryState;
use hpt_resize::{StateHolder, rehash_into};
use papr_codes::Rc;

/// What a rehash answers, and for H_PTEG_FULL the two entries that would meet, and where.
#[repr(C)]
#[derive(Clone, Copy)]
pub struct PaprRehash {
    /// The return code, as register 3 has it.
    pub rc: i64,
    /// The lower index in the old table.
    pub first: u32,
    /// The higher index in the old table.
    pub second: u32,
    /// The index in the new table.
    pub target: u32,
    /// Whether cached translations have to be dropped: after a success none of them is of the new
    /// table.
    pub stale: bool,
}

impl PaprRehash {
    /// A refusal with this code: no rehash is made.
    pub fn refused(rc: Rc) -> PaprRehash
        ensures { result ≡ refused_rehash rc }
    {
        PaprRehash {
            rc: rc.code(),
            first: 0,
            second: 0,
            target: 0,
            stale: false,
        }
    }
}

/// Empties each entry from one index up to another one. One that had another state is marked.
pub fn clear(entries: &mut [PaprEntry], first: usize, end: usize)
    requires low { first ≤ end }
    requires high { end ≤ length entries.old }
    ensures { entries.new ≡ emptied_between first end entries.old }
{
    for i in first..end {
        entries[i].hold(&EntryState::empty(0));
    }
}

/// Empties each entry, and marks each.
fn wipe(entries: &mut [PaprEntry])
    ensures { entries.new ≡ wiped_entries entries.old }
{
    for i in 0..entries.len() {
        entries[i] = PaprEntry::of(&EntryState::empty(0), true);
    }
}

/// Carries the bolted entries of a table over to another one, in which nothing else stays.
pub fn carry(entries: &[PaprEntry], order: u8, into: &mut [PaprEntry], into_order: u8) -> PaprRehash
    requires from { IsTableOrder order }
    requires to { IsTableOrder into_order }
    requires from_whole { length (states_of entries.now) ≡ entry_count order }
    requires to_whole { length (states_of into.old) ≡ entry_count into_order }
    ensures told { result ≡ rehash_told (collision_of order into_order (states_of entries.now)) }
    ensures table { let states = states_of entries.now in
        states_of into.new
        ≡ table_after (collision_of order into_order states) order into_order states }
    ensures marks { let states = states_of entries.now in
        into.new
        ≡ entries_after
        (collision_of order into_order states)
        order
        into_order
        states
        into.old }
{
    clear(into, 0, into.len());
    match rehash_into(order, into_order, entries, into) {
        Ok(()) => PaprRehash {
            rc: Rc::Success.code(),
            first: 0,
            second: 0,
            target: 0,
            stale: true,
        },
        Err(collision) => {
            wipe(into);
            PaprRehash {
                rc: Rc::PtegFull.code(),
                first: collision.first,
                second: collision.second,
                target: collision.target,
                stale: false,
            }
        }
    }
}

/// Carries the bolted entries of a table over to another one, as a committed resize does: each that
/// is the entry of a page to that page's group there, at its old slot and at stamp 0. What stood in
/// `into` is dropped. Where two entries would meet it answers H_PTEG_FULL, and `into` is empty. In
/// `into` each entry is marked that is valid then or had another state than an empty one, and after
/// H_PTEG_FULL each.
#[unsafe(no_mangle)]
pub extern "C" fn papr_rehash(
    entries: &[PaprEntry],
    order: u8,
    into: &mut [PaprEntry],
    into_order: u8,
) -> PaprRehash
    ensures told { (result, states_of into.new)
        ≡ outcome_of_rehash order (states_of entries.now) into_order (states_of into.old) }
    ensures marks { into.new
        ≡ rehashed_entries order (states_of entries.now) into_order into.old }
{
    if !is_table(entries, order) || !is_table(into, into_order) {
        return PaprRehash::refused(Rc::Parameter);
    }
    carry(entries, order, into, into_order)
}
