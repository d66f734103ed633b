//! Removal of up to four entries by one hypervisor call, from its plan (`call_plan`) to the whole
//! reply.
ghost use Rattle.entry_model.specs.Trial.{IsReplyOf};
ghost use Rattle.call_plan.specs.Bulk as plans;

use call_plan::{bulk_remove_plan, reply_plan};
use entry_model::{EntryStore, HReply};

/// H_BULK_REMOVE: four pairs of words, each a request to remove an entry and the word of its test.
/// The pairs are taken in order until one ends the list, is ill formed (H_PARAMETER), or finds an
/// entry whose stamp is at its last value (H_HARDWARE). The reply has all eight words, in which a
/// response replaces each request that was taken up.
pub fn h_bulk_remove<T: EntryStore>(store: &mut T, pairs: &[u64; 8]) -> HReply
    ensures made { T.made store.old store.new result.receipts }
    ensures reply { IsReplyOf
        (plans.h_bulk_remove_plan (T.table_order store.old) pairs.now)
        result }
{
    let plan = bulk_remove_plan(store.order(), pairs);
    reply_plan(store, &plan)
}
