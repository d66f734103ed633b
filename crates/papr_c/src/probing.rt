//! A translation looked up without a change: the operations of a walk, with no R or C recorded.
ghost use Rattle.std.specs.Prelude.{◌≡◌, ◌≤◌, ◌<◌, length};
ghost use Rattle.std.specs.List.{AllByRecursion};
ghost use Rattle.entry_model.specs.Receipt.{found_of};
ghost use Rattle.entry_model.specs.Trial.{Call};
ghost use Rattle.hpt_walk.specs.PageCalls.{calls_of};
ghost use Rattle.papr_c.specs.Walks.{each_as_is, outcome_of_probe};
ghost use Rattle.c_layout.specs.Entries.{states_of};

use crate::trying::asked;
use c_layout::{NO_PAGE, PaprAccess, PaprEntry, PaprWalk, is_table, want_of};
use entry_model::{CallList, Receipt};
use hpt_resize::StateHolder;
use hpt_walk::PageCalls;
use power_addr::Page;

/// The receipt that a walk would have of the entry that translates its page.
#[inline]
fn find(entries: &[PaprEntry], calls: &PageCalls) -> Option<Receipt>
    requires in_table { AllByRecursion
        (λ (c : Call). c.entry < length (states_of entries.now))
        (calls_of calls.now) }
    requires few { length (calls_of calls.now) ≤ 16 }
    ensures { result ≡ found_of (each_as_is (states_of entries.now) (calls_of calls.now)) }
{
    for made in 0..16 {
        let Some((entry, op)) = calls.call_at(made) else {
            return None;
        };
        let before = entries[entry as usize].state();
        let (receipt, _after) = asked(entry, before, &op);
        if !calls.goes_on_after(receipt.answer) {
            return Some(receipt);
        }
    }
    None
}

/// What `papr_walk` would find of an access to `ea`, by the entries as they are, none of which
/// changes. `dword1` and the rights are those without the access, and there are no receipts.
#[unsafe(no_mangle)]
pub extern "C" fn papr_probe(entries: &[PaprEntry], order: u8, access: &PaprAccess) -> PaprWalk
    ensures { result ≡ outcome_of_probe order access.now (states_of entries.now) }
{
    let page = Page::of_address(access.one_tb, access.vsid, access.shift, access.ea);
    let (Some(page), Some(want)) = (page, want_of(access.want)) else {
        return PaprWalk::refused();
    };
    if !is_table(entries, order) {
        return PaprWalk::refused();
    }
    let (key, no_execute, masks) = (access.key, access.no_execute, access.masks());
    let calls = PageCalls::of(&page, order, want, key, no_execute, masks);
    match find(entries, &calls) {
        Some(receipt) => PaprWalk::end(access, want, &receipt, &receipt.before, 0),
        None => PaprWalk::no_entry(NO_PAGE, 0),
    }
}
