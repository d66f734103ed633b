//! Hits: an access by a cached translation is one operation on its entry, made only while the entry
//! has the stamp that was cached.
ghost use Rattle.std.specs.Prelude.{◌≡◌, [], Some, IfSome, IfNone};
ghost use Rattle.entry_model.specs.declared.access_reply.By.TheVariants.{Hit};
ghost use Rattle.entry_model.specs.Replies.{access_reply_with};
ghost use Rattle.hpt_walk.specs.Translations.{TranslatesItsPage};
ghost use Rattle.hpt_walk.specs.Access.{IsHit, IsByWay, access_context};

use crate::asking::operation;
use crate::landing::outcome_at;
use entry_model::{AccessEnd, By, EntryStore, Line, Receipts};
use frame_grants::Grants;
use hpt_walk::Request;
use hpte_fields::secondary;
use slb_model::Segment;

/// The access by the line of its page that is cached. Its receipt replaces those in `receipts`.
/// `None` where no line is, or where the line's entry has left the line's stamp; then nothing was
/// made.
pub fn by_cache<T: EntryStore>(
    store: &mut T,
    grants: &Grants,
    segment: &Segment,
    request: &Request,
    cached: &Option<Line>,
    receipts: &mut Receipts,
) -> Option<AccessEnd>
    requires seen { IfSome cached.now (T.seen store.old) }
    requires translates { IfSome cached.now TranslatesItsPage }
    requires page { IfSome cached.now (λ line. line.page ≡ segment.now.page) }
    ensures reply { IfSome
        result
        (λ end.
        IsByWay
        (access_context (T.table_order store.old) grants.now.grants)
        segment.now
        request.now
        cached.now
        end.by
        (access_reply_with end receipts.new)) }
    ensures by { IfSome result (λ end. end.by ≡ Some Hit) }
    ensures made { IfSome result (λ end. T.made store.old store.new receipts.new) }
    ensures nothing { IfNone result (T.made store.old store.new []) }
    ensures is_gone { IfNone result (IfSome cached.now (T.gone store.new)) }
{
    match cached {
        None => None,
        Some(line) => by_line(store, grants, segment, request, line, receipts),
    }
}

fn by_line<T: EntryStore>(
    store: &mut T,
    grants: &Grants,
    segment: &Segment,
    request: &Request,
    line: &Line,
    receipts: &mut Receipts,
) -> Option<AccessEnd>
    requires seen { T.seen store.old line.now }
    requires translates { TranslatesItsPage line.now }
    requires page { line.now.page ≡ segment.now.page }
    ensures hit { IfSome
        result
        (λ end.
        IsHit
        (access_context (T.table_order store.old) grants.now.grants)
        segment.now
        request.now
        line.now
        (access_reply_with end receipts.new)) }
    ensures by { IfSome result (λ end. end.by ≡ Some Hit) }
    ensures made { IfSome result (λ end. T.made store.old store.new receipts.new) }
    ensures nothing { IfNone result (T.made store.old store.new []) }
    ensures is_gone { IfNone result (T.gone store.new line.now) }
{
    let op = operation(segment, request, secondary(line.dword0));
    match store.apply_known(line, op) {
        None => None,
        Some(receipt) => {
            let outcome = outcome_at(grants, request.ea, &receipt);
            receipts.clear();
            receipts.push(receipt);
            Some(AccessEnd {
                outcome,
                by: Some(By::Hit),
            })
        }
    }
}
