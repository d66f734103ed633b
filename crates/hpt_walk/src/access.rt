//! The operation that an access makes on an entry, built from the page's tag, H, the segment's key
//! and the processor's masks.
ghost use Rattle.std.specs.Prelude.{◌≡◌};
ghost use Rattle.entry_model.specs.Receipt.{IsNormal};
ghost use Rattle.hpt_walk.specs.Walk as table;
ghost use Rattle.entry_model.specs.Reply.{access_mode};

use authority_mask::Masks;
use entry_model::Op;
use hpte_fields::{SECONDARY, VALID};
use power_addr::Page;
use storage_prot::Want;

/// The access of a page by one of its entries: `secondary` says whether the entry is in the
/// page's secondary group, `key` is the segment's key for the state of the processor, `no_execute`
/// says whether the segment refuses instruction fetches, and `masks` are the processor's.
#[inline(always)]
pub fn access_op(
    page: &Page,
    key: bool,
    no_execute: bool,
    want: Want,
    masks: Masks,
    secondary: bool,
) -> Op
    ensures op { result
        ≡ table.access_op page.now (access_mode key no_execute want masks) secondary }
    ensures normal { IsNormal result }
{
    let hash = if secondary { SECONDARY } else { 0 };
    Op::Access {
        tag: page.tag() + hash + VALID,
        base: page.shift(),
        key,
        no_execute,
        want,
        masks,
    }
}
