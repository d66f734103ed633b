//! The translation of an access by lent entries: its page's two groups are tried, and R and C are
//! recorded where the access is allowed.
ghost use Rattle.std.specs.Prelude.{◌≡◌};
ghost use Rattle.papr_c.specs.Walks.{walk_memory, outcome_of_walk};
ghost use Rattle.c_layout.specs.Entries.{states_of, AreMarked};

use crate::trying::try_by_groups;
use c_layout::{
    NO_PAGE, PaprAccess, PaprEntry, PaprReceipt, PaprWalk, filled_count, is_table, want_of,
};
use hpt_resize::StateHolder;
use hpt_walk::PageCalls;
use power_addr::Page;

/// An access to `ea` by the entry of its page: the walk of the page's two groups, which records R
/// and C in the entry.
#[tactic(auto, using(c_layout::proofs::Marks::marked_none))]
#[unsafe(no_mangle)]
pub extern "C" fn papr_walk(
    entries: &mut [PaprEntry],
    order: u8,
    access: &PaprAccess,
    receipts: &mut [PaprReceipt],
) -> PaprWalk
    ensures told { (result, walk_memory (states_of entries.new) receipts.new)
        ≡ outcome_of_walk order access.now (walk_memory (states_of entries.old) receipts.old) }
    ensures marks { AreMarked entries.old entries.new }
{
    let page = Page::of_address(access.one_tb, access.vsid, access.shift, access.ea);
    let (Some(page), Some(want)) = (page, want_of(access.want)) else {
        return PaprWalk::refused();
    };
    if !is_table(entries, order) {
        return PaprWalk::refused();
    }
    let (key, no_execute, masks) = (access.key, access.no_execute, access.masks());
    let calls = PageCalls::of(&page, order, want, key, no_execute, masks);
    let tried = try_by_groups(entries, &calls, receipts);
    let filled = filled_count(receipts.len(), tried.count);
    match tried.ending {
        Some(receipt) => {
            let now = entries[receipt.entry as usize].state();
            PaprWalk::end(access, want, &receipt, &now, filled)
        }
        None => PaprWalk::no_entry(NO_PAGE, filled),
    }
}
