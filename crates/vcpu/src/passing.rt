//! How an access in a segment uses the translation cache: a hit if it can, else a walk, after which
//! the cache has the translation that was found.
ghost use Rattle.std.specs.Prelude.{◌≡◌, Some, None, IfSome};
ghost use Rattle.tlb_model.specs.Cache.{AllCached, cached_line};
ghost use Rattle.entry_model.specs.CachedLines.{AllLater};
ghost use Rattle.entry_model.specs.Replies.{access_reply_with};
ghost use Rattle.hpt_walk.specs.Translations.{TranslatesItsPage};
ghost use Rattle.hpt_walk.specs.Access.{IsByWay, access_context};
ghost use Rattle.entry_model.specs.declared.access_reply.By.TheVariants.{Walk};
ghost use Rattle.entry_model.specs.Receipt as receipts;
ghost use Rattle.vcpu.specs.Walked.{FindsPage};
ghost use Rattle.tlb_model.specs.CacheAfter.{cache_after, gone_by_way, with_kept};

use crate::by_cache::by_cache;
use crate::by_walk::{Walked, by_walk, kept_line};
use entry_model::{AccessEnd, Answer, EntryStore, Line, Receipt, Receipts};
use frame_grants::Grants;
use hpt_walk::Request;
use slb_model::Segment;
use tlb_model::Tlb;

/// The access in its segment: by the line of the page that is cached, or past it by a walk. Its
/// receipts replace those in `receipts`.
pub fn in_segment<T: EntryStore>(
    tlb: &mut Tlb,
    store: &mut T,
    grants: &Grants,
    segment: &Segment,
    request: &Request,
    receipts: &mut Receipts,
) -> AccessEnd
    requires seen { AllCached (T.seen store.old) tlb.old }
    requires translate { AllCached TranslatesItsPage tlb.old }
    ensures made { T.made store.old store.new receipts.new }
    ensures reply { IsByWay
        (access_context (T.table_order store.old) grants.now.grants)
        segment.now
        request.now
        (cached_line tlb.old segment.now.page)
        result.by
        (access_reply_with result receipts.new) }
    ensures cache { tlb.new
        ≡ cache_after
        tlb.old
        (Some segment.now)
        result.by
        (access_reply_with result receipts.new) }
    ensures seen { AllCached (T.seen store.new) tlb.new }
    ensures translate { AllCached TranslatesItsPage tlb.new }
    ensures comes_later { IfSome
        (gone_by_way result.by (cached_line tlb.old segment.now.page))
        (λ line. AllLater line receipts.new) }
    ensures gone { IfSome
        (gone_by_way result.by (cached_line tlb.old segment.now.page))
        (T.gone store.new) }
{
    let line = tlb.find(&segment.page);
    if let Some(end) = by_cache(store, grants, segment, request, &line, receipts) {
        return end;
    }
    // The line goes before the walk: a line of an earlier state may not answer next to the new one.
    tlb.drop_line(&segment.page);
    let Walked { end, line } = by_walk(store, grants, segment, request, receipts);
    refill(tlb, line);
    end
}

/// Fills the line, if there is one, of a page that has none.
pub fn refill(tlb: &mut Tlb, kept: Option<Line>)
    requires { IfSome kept (λ line. cached_line tlb.old line.page ≡ None) }
    ensures { tlb.new ≡ with_kept kept tlb.old }
{
    match kept {
        None => {}
        Some(line) => tlb.fill(line),
    }
}

/// The receipt of the entry that a walk found: the first that doesn't say NoMatch.
fn found_of(list: &[Receipt]) -> Option<Receipt>
    ensures { result ≡ receipts.found_of list.now }
{
    list.iter()
        .copied()
        .find(|receipt| !matches!(receipt.answer, Answer::NoMatch))
}

/// Leaves the cache as it is after a walk of the segment's page that ended so, with these receipts.
pub fn walked(tlb: &mut Tlb, segment: &Segment, end: &AccessEnd, list: &[Receipt])
    requires by { end.now.by ≡ Some Walk }
    requires translate { AllCached TranslatesItsPage tlb.old }
    requires found { FindsPage segment.now.page list.now }
    ensures cache { tlb.new
        ≡ cache_after
        tlb.old
        (Some segment.now)
        end.now.by
        (access_reply_with end.now list.now) }
    ensures translate { AllCached TranslatesItsPage tlb.new }
{
    let found = found_of(list);
    let kept = kept_line(&segment.page, end.outcome, &found);
    tlb.drop_line(&segment.page);
    refill(tlb, kept);
}
