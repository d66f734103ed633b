//! The calls on one entry, or on four neighbours for H_READ: each runs its plan (`call_plan`) on
//! the store, and gives the whole reply.
ghost use Rattle.entry_model.specs.Trial.{IsReplyOf};
ghost use Rattle.call_plan.specs.Single as plans;

use call_plan::{clear_mod_plan, clear_ref_plan, protect_plan, read_plan, remove_plan, reply_plan};
use entry_model::{EntryStore, HReply};

/// H_REMOVE: empties the entry and gives both its doublewords, with R and C. Under H_AVPN `avpn`
/// has to be the entry's abbreviated virtual page number, and under H_ANDCOND the entry may have
/// none of these bits in doubleword 0; else H_NOT_FOUND comes.
pub fn h_remove<T: EntryStore>(store: &mut T, flags: u64, ptex: u64, avpn: u64) -> HReply
    ensures made { T.made store.old store.new result.receipts }
    ensures reply { IsReplyOf
        (plans.h_remove_plan (T.table_order store.old) flags ptex avpn)
        result }
{
    let plan = remove_plan(store.order(), flags, ptex, avpn);
    reply_plan(store, &plan)
}

/// H_PROTECT: gives the entry the protection, key and no-execute bits that lie in `flags`. Under
/// H_AVPN `avpn` has to be the entry's abbreviated virtual page number; else H_NOT_FOUND comes.
pub fn h_protect<T: EntryStore>(store: &mut T, flags: u64, ptex: u64, avpn: u64) -> HReply
    ensures made { T.made store.old store.new result.receipts }
    ensures reply { IsReplyOf
        (plans.h_protect_plan (T.table_order store.old) flags ptex avpn)
        result }
{
    let plan = protect_plan(store.order(), flags, ptex, avpn);
    reply_plan(store, &plan)
}

/// H_CLEAR_REF: clears R, and gives doubleword 1 as it was. No flag has an effect.
pub fn h_clear_ref<T: EntryStore>(store: &mut T, _flags: u64, ptex: u64) -> HReply
    ensures made { T.made store.old store.new result.receipts }
    ensures reply { IsReplyOf (plans.h_clear_ref_plan (T.table_order store.old) ptex) result }
{
    let plan = clear_ref_plan(store.order(), ptex);
    reply_plan(store, &plan)
}

/// H_CLEAR_MOD: clears C, and gives doubleword 1 as it was. No flag has an effect.
pub fn h_clear_mod<T: EntryStore>(store: &mut T, _flags: u64, ptex: u64) -> HReply
    ensures made { T.made store.old store.new result.receipts }
    ensures reply { IsReplyOf (plans.h_clear_mod_plan (T.table_order store.old) ptex) result }
{
    let plan = clear_mod_plan(store.order(), ptex);
    reply_plan(store, &plan)
}

/// H_READ: both doublewords of the entry, with R and C; under H_READ_4 those of the four entries
/// that it lies among. An entry that isn't valid reads as zeros.
pub fn h_read<T: EntryStore>(store: &mut T, flags: u64, ptex: u64) -> HReply
    ensures made { T.made store.old store.new result.receipts }
    ensures reply { IsReplyOf (plans.h_read_plan (T.table_order store.old) flags ptex) result }
{
    let plan = read_plan(store.order(), flags, ptex);
    reply_plan(store, &plan)
}
