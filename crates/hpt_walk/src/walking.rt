//! The walk over a store of entries: the groups of a page are searched, the primary one first, and
//! each entry tried makes a receipt.
ghost use Rattle.std.specs.Prelude.{◌≡◌, ◌≤◌, ◌<◌, ◌-◌, ◌+◌, ◌*◌, ◌++◌, ◌↔◌, length, IsNone, IfSome};
ghost use Rattle.hpte_fields.specs.TableSize.{entry_count, greatest_order, group_count};
ghost use Rattle.entry_model.specs.Reply.{access_mode};
ghost use Rattle.entry_model.specs.Receipt.{IsNormal, is_no_match, found_of};
ghost use Rattle.entry_model.specs.Trial.{IsTrial, receipts_added};
ghost use Rattle.entry_model.specs.CachedLines.{ShowsLine, line_of};
ghost use Rattle.hpt_walk.specs.Walk.{walk_calls, group_calls, AreAllNoMatch};
ghost use Rattle.hpt_walk.specs.Translations.{TranslatesItsPage};

use crate::access::access_op;
use crate::page_calls::goes_on_after;
use authority_mask::Masks;
use entry_model::{EntryStore, Op, Receipt, Receipts};
use hpt_hash::groups;
use hpte_fields::GROUP_SIZE;
use power_addr::Page;
use storage_prot::Want;

/// What a walk found, and the receipts that it made, in their order.
#[derive(Drop)]
pub struct WalkAnswer {
    /// The receipt of the entry that translates the page: the last one, which says At, Masked or
    /// Denied.
    pub found: Option<Receipt>,
    /// One for each entry that was tried, in walk order: at most sixteen.
    pub receipts: Receipts,
}

/// Makes an access of the page on the entries of its primary group, then on those of its secondary
/// group, in slot order, up to the first that translates the page. `key` is the segment's key for
/// the state of the processor, `no_execute` says whether the segment refuses instruction fetches,
/// and `masks` are the processor's.
pub fn walk<T: EntryStore>(
    store: &mut T,
    page: &Page,
    want: Want,
    key: bool,
    no_execute: bool,
    masks: Masks,
) -> WalkAnswer
    ensures made { T.made store.old store.new result.receipts }
    ensures trial { IsTrial
        is_no_match
        (walk_calls (T.table_order store.old) page.now (access_mode key no_execute want masks))
        result.receipts }
    ensures found { result.found ≡ found_of result.receipts }
    ensures none { IsNone result.found ↔ AreAllNoMatch result.receipts }

    // What a cache may keep of the entry.
    ensures shown { IfSome result.found (λ r. ShowsLine (line_of page.now r) result.receipts) }
    ensures translates { IfSome result.found (λ r. TranslatesItsPage (line_of page.now r)) }
{
    let mut receipts = Receipts::new();
    let found = walk_into(store, page, want, key, no_execute, masks, &mut receipts);
    WalkAnswer { found, receipts }
}

/// Makes the walk that `walk` makes, and replaces what is in `receipts` by its receipts. Gives back
/// the receipt of the entry that translates the page: the last one, which says At, Masked or
/// Denied.
#[tactic(auto, unfolding(crate::specs::Walk::walk_calls))]
pub fn walk_into<T: EntryStore>(
    store: &mut T,
    page: &Page,
    want: Want,
    key: bool,
    no_execute: bool,
    masks: Masks,
    receipts: &mut Receipts,
) -> Option<Receipt>
    ensures made { T.made store.old store.new receipts.new }
    ensures trial { IsTrial
        is_no_match
        (walk_calls (T.table_order store.old) page.now (access_mode key no_execute want masks))
        receipts.new }
    ensures found { result ≡ found_of receipts.new }
    ensures none { IsNone result ↔ AreAllNoMatch receipts.new }

    // What a cache may keep of the entry.
    ensures shown { IfSome result (λ r. ShowsLine (line_of page.now r) receipts.new) }
    ensures translates { IfSome result (λ r. TranslatesItsPage (line_of page.now r)) }
{
    receipts.clear();
    let (primary, secondary) = groups(page, store.order());
    let op = access_op(page, key, no_execute, want, masks, false);
    if let Some(receipt) = search(store, primary as u32, op, receipts) {
        return Some(receipt);
    }
    let op = access_op(page, key, no_execute, want, masks, true);
    search(store, secondary as u32, op, receipts)
}

/// Makes an access on the entries of a group, in slot order, up to the first that doesn't say
/// NoMatch, which it gives back.
// The operation is the same for all of them, and stays where it is. By `make_trial`, which asks for
// the operation of each call, a walk that finds nothing takes 230 instructions more.
fn search<T: EntryStore>(
    store: &mut T,
    group: u32,
    op: Op,
    receipts: &mut Receipts,
) -> Option<Receipt>
    requires in_table { group * 8 + 8 ≤ entry_count (T.table_order store.old) }
    requires small { group < group_count greatest_order }
    requires normal { IsNormal op }
    requires room { length receipts.old ≤ 8 }
    ensures behind { receipts.new ≡ receipts.old ++ receipts_added receipts.old receipts.new }
    ensures few { length receipts.new ≤ length receipts.old + 8 }
    ensures made { T.made store.old store.new (receipts_added receipts.old receipts.new) }
    ensures trial { IsTrial
        is_no_match
        (group_calls op group)
        (receipts_added receipts.old receipts.new) }
    ensures found { result ≡ found_of (receipts_added receipts.old receipts.new) }
{
    for slot in 0..GROUP_SIZE {
        let receipt = store.apply(group * GROUP_SIZE + slot, op);
        let answer = receipt.answer;
        receipts.push(receipt);
        if !goes_on_after(answer) {
            return receipts.as_slice().last().copied();
        }
    }
    None
}
