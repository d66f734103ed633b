//! A walk as a list of at most sixteen calls, each computed from the page's two groups when it is
//! asked for.
ghost use Rattle.hpte_fields.specs.TableSize.{IsTableOrder, greatest_order, group_count};
ghost use Rattle.std.specs.Prelude.{◌≡◌, ◌<◌};
ghost use Rattle.entry_model.specs.Receipt.{is_no_match};

use crate::access::access_op;
use authority_mask::Masks;
use entry_model::{Answer, CallList, Op};
use hpt_hash::groups;
use hpte_fields::GROUP_SIZE;
use power_addr::Page;
use storage_prot::Want;

/// Whether a walk goes on to the next entry after this answer.
#[inline]
pub fn goes_on_after(answer: Answer) -> bool
    ensures { result ≡ is_no_match answer }
{
    matches!(answer, Answer::NoMatch)
}

/// The calls of a walk of a page: its access on the entries of its primary group, then on those of
/// its secondary group, in slot order, up to the first that translates the page.
#[derive(Clone, Copy)]
pub struct PageCalls {
    primary: u32,
    early: Op,
    secondary: u32,
    late: Op,
    ghost primary_small: { primary < group_count greatest_order },
    ghost secondary_small: { secondary < group_count greatest_order },
}

impl PageCalls {
    ghost use Rattle.std.specs.Prelude.{◌≡◌};
    ghost use Rattle.entry_model.specs.Reply.{access_mode};
    ghost use Rattle.entry_model.specs.Calls.{AreCallsIn};
    ghost use Rattle.hpt_walk.specs.Walk.{walk_calls};
    ghost use Rattle.hpt_walk.specs.PageCalls.{calls_of};

    /// The calls of an access of the page on a table of `2^order` bytes. `key` is the segment's key
    /// for the state of the processor, `no_execute` says whether the segment refuses instruction
    /// fetches, and `masks` are the processor's.
    #[inline(always)]
    #[tactic(auto, unfolding(crate::specs::Walk::walk_calls))]
    pub fn of(
        page: &Page,
        order: u8,
        want: Want,
        key: bool,
        no_execute: bool,
        masks: Masks,
    ) -> PageCalls
        requires order { IsTableOrder order }
        ensures calls { calls_of result
            ≡ walk_calls order page.now (access_mode key no_execute want masks) }
        ensures fits { AreCallsIn order (calls_of result) }
    {
        let (primary, secondary) = groups(page, order);
        PageCalls {
            primary: primary as u32,
            early: access_op(page, key, no_execute, want, masks, false),
            secondary: secondary as u32,
            late: access_op(page, key, no_execute, want, masks, true),
        }
    }
}

impl CallList for PageCalls {
    ghost use Rattle.hpt_walk.specs.PageCalls.{calls_of};

    ghost calls = { calls_of };

    ghost goes_on = { λ list. is_no_match };

    #[inline(always)]
    fn call_at(&self, made: u32) -> Option<(u32, Op)> {
        if made < GROUP_SIZE {
            Some((self.primary * GROUP_SIZE + made, self.early))
        } else if made < 2 * GROUP_SIZE {
            Some((self.secondary * GROUP_SIZE + (made - GROUP_SIZE), self.late))
        } else {
            None
        }
    }

    #[inline]
    fn goes_on_after(&self, answer: Answer) -> bool {
        goes_on_after(answer)
    }
}
