//! A caller that decodes an entry's page and hashes it: the group found is the one that has the
//! entry.
ghost use Rattle.std.specs.Prelude.{◌≡◌, ◌<◌, ◌≤◌, ◌-◌, ◌/◌, ◌^◌, is_some, IfSome};
ghost use Rattle.hpte_fields.specs.TableSize.{entry_count, IsTableOrder};
ghost use Rattle.hpt_hash.specs.Entries.{page_at};

use hpt_hash::{groups, page_of};
use hpte_fields::secondary;

/// The group to which the page of an entry hashes, for the entry's H: the group that has the entry.
/// None exactly if the entry is one of no page.
pub fn group_of_entry(order: u8, index: u32, dword0: u64, dword1: u64) -> Option<u64>
    requires order { IsTableOrder order }
    requires in_table { index < entry_count order }
    ensures group { IfSome result (λ group. group ≡ index / 8) }
    ensures exact { is_some result ≡ is_some (page_at order index dword0 dword1) }
{
    let page = page_of(order, index, dword0, dword1)?;
    let (first, second) = groups(&page, order);
    Some(if secondary(dword0) { second } else { first })
}
