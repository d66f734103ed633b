//! H_ENTER with and without its checks: each makes a plan of `call_plan`, runs it on the store, and
//! gives the whole reply.
ghost use Rattle.std.specs.Prelude.{◌≡◌, ◌<◌, Some};
ghost use Rattle.entry_model.specs.Trial.{IsReplyOf};
ghost use Rattle.hpte_fields.specs.TableSize.{entry_count};
ghost use Rattle.hpte_fields.specs.Fields.{normal_words};
ghost use Rattle.call_plan.specs.Checks.{h_enter_plan};
ghost use Rattle.call_plan.specs.Enter.{enter_plan};

use call_plan::{enter_plan, reply_plan, words_plan};
use entry_model::{EntryStore, HReply};
use frame_grants::Grants;

/// H_ENTER: puts the translation of a page into the table. `flags` may have H_EXACT, `ptex` names
/// the entry, or the group by one of its entries, `pteh` and `ptel` are the two doublewords.
/// H_PARAMETER comes for an index past the table, for words that can't be stored, and for a page
/// that no single grant holds with these storage control bits; nothing is tried then.
pub fn h_enter<T: EntryStore>(
    store: &mut T,
    grants: &Grants,
    flags: u64,
    ptex: u64,
    pteh: u64,
    ptel: u64,
) -> HReply
    ensures made { T.made store.old store.new result.receipts }
    ensures reply { IsReplyOf
        (h_enter_plan (T.table_order store.old) grants.now.grants flags ptex pteh ptel)
        result }
{
    let plan = enter_plan(store.order(), grants, flags, ptex, pteh, ptel);
    reply_plan(store, &plan)
}

/// The part of H_ENTER after its checks: tries the named entry under H_EXACT, else the eight of its
/// group in slot order, until one isn't taken. H_SUCCESS comes with the entry's index, H_PTEG_FULL
/// where each was taken, and H_HARDWARE where the entry's stamp is at its last value.
pub fn enter_words<T: EntryStore>(
    store: &mut T,
    flags: u64,
    ptex: u64,
    dword0: u64,
    dword1: u64,
) -> HReply
    requires in_table { ptex < entry_count (T.table_order store.old) }
    requires normal { normal_words dword0 dword1 ≡ Some (dword0, dword1) }
    ensures made { T.made store.old store.new result.receipts }
    ensures reply { IsReplyOf (enter_plan flags ptex dword0 dword1) result }
{
    let plan = words_plan(store.order(), flags, ptex, dword0, dword1);
    reply_plan(store, &plan)
}
