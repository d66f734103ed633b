//! A processor's segments, authority masks and translation cache, and its accesses: each finds its
//! segment first, and then uses the cache or a walk.
ghost use Rattle.std.specs.Prelude.{◌≡◌, Some, None, IfSome, MatchResult, OnOk, OnErr};
ghost use Rattle.slb_model.specs.Buffer.{no_slots, slots_after, segment_of};
ghost use Rattle.slb_model.specs.Refusals.{mte_refusal};
ghost use Rattle.authority_mask.specs.Authority.{no_masks};
ghost use Rattle.tlb_model.specs.Cache.{AllCached, cached_line, empty_cache};
ghost use Rattle.entry_model.specs.CachedLines.{AllLater};
ghost use Rattle.entry_model.specs.Replies.{access_reply_with};
ghost use Rattle.hpt_walk.specs.Access.{IsAccessReply, access_context, request};
ghost use Rattle.tlb_model.specs.CacheAfter.{cache_after, gone_line};
ghost use Rattle.std.specs.Borrow.{sem};
ghost use Rattle.vcpu.specs.LentMasks.{LendsMasks};
ghost use Rattle.vcpu.specs.Walked.{WalkFindsPage};

use crate::passing::{in_segment, walked};
use authority_mask::Masks;
use entry_model::{AccessEnd, AccessReply, By, EntryStore, Line, Outcome, Receipt, Receipts};
use frame_grants::Grants;
use hpt_walk::Request;
use power_addr::Page;
use slb_model::{BadSlb, Segment, Slb};
use std::marker::Model;
use storage_prot::Want;
use tlb_model::Tlb;

/// One processor: its segments, its authority masks, and the translations that it has cached.
#[derive(Drop)]
pub struct Cpu {
    slb: Slb,
    masks: Masks,
    tlb: Tlb,
}

impl Model for Cpu {
    ghost use Rattle.tlb_model.specs.Processor.{Processor};
    ghost use Rattle.tlb_model.specs.Cache.{AllCached};
    ghost use Rattle.hpt_walk.specs.Translations.{TranslatesItsPage};

    ghost Value = { Processor };

    ghost view = { λ cpu. record { slots = cpu.slb; masks = cpu.masks; cache = cpu.tlb } };

    ghost invariant = { λ cpu. AllCached TranslatesItsPage cpu.tlb };
}

impl Cpu {
    /// A processor without a segment and without a cached translation, whose masks refuse nothing.
    pub fn new() -> Cpu
        ensures slots { result.slots ≡ no_slots }
        ensures masks { result.masks ≡ no_masks }
        ensures cache { result.cache ≡ empty_cache }
    {
        Cpu {
            slb: Slb::new(),
            masks: Masks::default(),
            tlb: Tlb::new(),
        }
    }

    /// The instruction `slbmte`.
    pub fn mte(&mut self, rb: u64, rs: u64) -> Result<(), BadSlb>
        ensures told { MatchResult result
            (λ _. mte_refusal rb rs ≡ None) (λ e. mte_refusal rb rs ≡ Some e) }
        ensures ok { OnOk result
            (self.new ≡ record self.old { slots = slots_after self.old.slots rb rs }) }
        ensures err { OnErr result (self.new ≡ self.old) }
    {
        self.slb.mte(rb, rs)
    }

    /// Makes all segments invalid.
    pub fn clear_slb(&mut self)
        ensures { self.new ≡ record self.old { slots = no_slots } }
    {
        self.slb.clear();
    }

    /// The authority masks, which the caller may set.
    pub fn masks(&mut self) -> &mut Masks
        ensures* set { sem 𝓛 (LendsMasks self.entry result) }
        ensures now { result.now ≡ self.old.masks }
    {
        &mut self.masks
    }

    /// The authority masks as they are.
    pub fn authority(&self) -> Masks
        ensures { result ≡ self.now.masks }
    {
        self.masks
    }

    /// The segment that has the effective address, if there is one.
    pub fn segment(&self, ea: u64) -> Option<Segment>
        ensures { result ≡ segment_of self.now.slots ea }
    {
        self.slb.segment(ea)
    }

    /// The line of the page, if it is cached.
    pub fn cached(&self, page: &Page) -> Option<Line>
        ensures { result ≡ cached_line self.now.cache page.now }
    {
        self.tlb.find(page)
    }

    /// Forgets all cached translations.
    pub fn clear_cache(&mut self)
        ensures { self.new ≡ record self.old { cache = empty_cache } }
    {
        self.tlb.clear();
    }

    /// An access to memory, at the page table in `store` and the granted memory. `user` says
    /// whether the processor is in problem state.
    ///
    /// Without a segment it ends at once. By the line of its page that is cached, one operation is
    /// made on the line's entry; where there is none, or its entry was changed since, the line goes
    /// and a walk follows, and where it ended at a machine address the entry's line is cached.
    pub fn access<T: EntryStore>(
        &mut self,
        store: &mut T,
        grants: &Grants,
        ea: u64,
        want: Want,
        user: bool,
    ) -> AccessReply
        requires seen { AllCached (T.seen store.old) self.old.cache }
        ensures made { T.made store.old store.new result.receipts }
        ensures reply { IsAccessReply
            (access_context (T.table_order store.old) grants.now.grants)
            (cached_line self.old.cache)
            (request want ea user self.old.masks)
            (segment_of self.old.slots ea)
            result }
        ensures slots { self.new.slots ≡ self.old.slots }
        ensures masks { self.new.masks ≡ self.old.masks }
        ensures cache { self.new.cache
            ≡ cache_after self.old.cache (segment_of self.old.slots ea) result.by result }
        ensures seen { AllCached (T.seen store.new) self.new.cache }

        // Where it was by Walk, the line of the page that was cached had left its stamp.
        ensures comes_later { IfSome
            (gone_line self.old.cache (segment_of self.old.slots ea) result)
            (λ line. AllLater line result.receipts) }
        ensures gone { IfSome
            (gone_line self.old.cache (segment_of self.old.slots ea) result)
            (T.gone store.new) }
    {
        let mut receipts = Receipts::new();
        let end = self.access_into(store, grants, ea, want, user, &mut receipts);
        end.into_reply(receipts)
    }

    /// Makes the access that `access` makes. Its receipts replace those in `receipts`.
    // Out of line: docs/PERFORMANCE.md says why.
    #[inline(never)]
    pub fn access_into<T: EntryStore>(
        &mut self,
        store: &mut T,
        grants: &Grants,
        ea: u64,
        want: Want,
        user: bool,
        receipts: &mut Receipts,
    ) -> AccessEnd
        requires seen { AllCached (T.seen store.old) self.old.cache }
        ensures made { T.made store.old store.new receipts.new }
        ensures reply { IsAccessReply
            (access_context (T.table_order store.old) grants.now.grants)
            (cached_line self.old.cache)
            (request want ea user self.old.masks)
            (segment_of self.old.slots ea)
            (access_reply_with result receipts.new) }
        ensures slots { self.new.slots ≡ self.old.slots }
        ensures masks { self.new.masks ≡ self.old.masks }
        ensures cache { self.new.cache
            ≡ cache_after
            self.old.cache
            (segment_of self.old.slots ea)
            result.by
            (access_reply_with result receipts.new) }
        ensures seen { AllCached (T.seen store.new) self.new.cache }

        // Where it was by Walk, the line of the page that was cached had left its stamp.
        ensures comes_later { IfSome
            (gone_line
            self.old.cache
            (segment_of self.old.slots ea)
            (access_reply_with result receipts.new))
            (λ line. AllLater line receipts.new) }
        ensures gone { IfSome
            (gone_line
            self.old.cache
            (segment_of self.old.slots ea)
            (access_reply_with result receipts.new))
            (T.gone store.new) }
    {
        match self.slb.segment(ea) {
            None => {
                receipts.clear();
                AccessEnd {
                    outcome: Outcome::NoSegment,
                    by: None,
                }
            }
            Some(segment) => {
                let request = Request {
                    want,
                    ea,
                    user,
                    masks: self.masks,
                };
                in_segment(&mut self.tlb, store, grants, &segment, &request, receipts)
            }
        }
    }
    /// Leaves the processor as it is after an access that was made elsewhere and ended so, with
    /// these receipts. Where a walk landed, the line of the entry found takes the place of the
    /// page's.
    pub fn after_access(&mut self, ea: u64, end: &AccessEnd, receipts: &[Receipt])
        requires { WalkFindsPage (segment_of self.old.slots ea) end.now.by receipts.now }
        ensures { self.new
            ≡ record self.old {
              cache =
                  cache_after
                  self.old.cache
                  (segment_of self.old.slots ea)
                  end.now.by
                  (access_reply_with end.now receipts.now);
            } }
    {
        if let (Some(segment), Some(By::Walk)) = (self.slb.segment(ea), end.by) {
            walked(&mut self.tlb, &segment, end, receipts);
        }
    }
}
