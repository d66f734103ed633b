//! Misses: an access by a walk of the page's two groups, and what the cache gets of the entry found
//! where the access lands.
ghost use Rattle.std.specs.Prelude.{◌≡◌, Some, IfSome};
ghost use Rattle.entry_model.specs.declared.access_reply.By.TheVariants.{Walk};
ghost use Rattle.hpt_walk.specs.Translations.{TranslatesItsPage};
ghost use Rattle.entry_model.specs.Receipt.{found_of};
ghost use Rattle.entry_model.specs.Replies.{access_reply_with};
ghost use Rattle.hpt_walk.specs.Access.{IsWalk, access_context};
ghost use Rattle.tlb_model.specs.CacheAfter as cache;

use crate::asking::key;
use crate::landing::outcome;
use entry_model::{AccessEnd, By, EntryStore, Line, Outcome, Receipt, Receipts};
use frame_grants::Grants;
use hpt_walk::{Request, walk_into};
use power_addr::Page;
use slb_model::Segment;

/// How an access by a walk ended, and the line that the cache gets.
pub struct Walked {
    /// How the access ended.
    pub end: AccessEnd,
    /// What the cache gets: only where the access landed.
    pub line: Option<Line>,
}

/// The access by a walk of the page's two groups. Its receipts replace those in `receipts`.
#[tactic(auto, unfolding(hpt_walk::specs::Access::outcome_of))]
pub fn by_walk<T: EntryStore>(
    store: &mut T,
    grants: &Grants,
    segment: &Segment,
    request: &Request,
    receipts: &mut Receipts,
) -> Walked
    ensures walk { IsWalk
        (access_context (T.table_order store.old) grants.now.grants)
        segment.now
        request.now
        (access_reply_with result.end receipts.new) }
    ensures by { result.end.by ≡ Some Walk }
    ensures made { T.made store.old store.new receipts.new }
    ensures line { result.line
        ≡ cache.kept_line segment.now.page result.end.outcome (found_of receipts.new) }
    ensures seen { IfSome result.line (T.seen store.new) }
    ensures translates { IfSome result.line TranslatesItsPage }
{
    let key = key(segment, request.user);
    let found = walk_into(
        store,
        &segment.page,
        request.want,
        key,
        segment.no_execute,
        request.masks,
        receipts,
    );
    let outcome = outcome(grants, request.ea, &found);
    let line = kept_line(&segment.page, outcome, &found);
    Walked {
        end: AccessEnd {
            outcome,
            by: Some(By::Walk),
        },
        line,
    }
}

/// The line of the entry found, where the walk ended at a machine address.
pub fn kept_line(page: &Page, outcome: Outcome, found: &Option<Receipt>) -> Option<Line>
    ensures { result ≡ cache.kept_line page.now outcome found.now }
{
    match (outcome, found) {
        (Outcome::At(_), Some(receipt)) => Some(Line {
            page: *page,
            entry: receipt.entry,
            stamp: receipt.before.stamp,
            dword0: receipt.before.dword0,
            dword1: receipt.before.dword1,
        }),
        _ => None,
    }
}
