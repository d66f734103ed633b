//! The base page that an entry translates, rebuilt from its doublewords and its group.
ghost use Rattle.std.specs.Prelude.{◌≡◌, ◌<◌, ◌≤◌, ◌↔◌, ◌-◌, ◌/◌, ◌^◌, IfSome, Some, None};
ghost use Rattle.hpte_fields.specs.TableSize.{IsTableOrder, entry_count};
ghost use Rattle.hpte_fields.specs.Fields.{is_secondary};
ghost use Rattle.power_addr.specs.Pages.{VirtualPage, IsPage, offset_bits};
ghost use Rattle.hpt_hash.specs.Entries.{IsPageOf, SuitsPage, confirmed_page, low_hash, number_field, page_at, rebuilt_page};

use crate::hash::groups;
use hpte_fields::{VALID, one_tb, secondary, tag_of};
use page_sizes::decode;
use power_addr::{Page, offset_bits_of};

/// The 55 bits of an abbreviated virtual page number, which follows the low seven bits of
/// doubleword 0.
const VIRTUAL_PAGE_NUMBER: u64 = (1 << 55) - 1;

/// The low bits of a hash that a group number always holds, as a table has at least 2^11 groups.
const LOW_HASH: u64 = 0x7FF;

/// A virtual page number holds the address bits from weight `2^LOWEST_BIT` up.
pub const LOWEST_BIT: u32 = 23;

/// The page that an entry with these doublewords translates at this index of a table of `2^order`
/// bytes. `None` where the entry is one of no page: V is clear, the doublewords encode no page
/// size, B is above 1, a base page of that size does not fit the segment or does not begin at the
/// address of the tag, or the page's group is not the one of `index`.
#[tactic(auto, unfolding(crate::specs::Entries::page_at))]
pub fn page_of(order: u8, index: u32, dword0: u64, dword1: u64) -> Option<Page>
    requires order { IsTableOrder order }
    requires in_table { index < entry_count order }
    ensures value { result ≡ page_at order index dword0 dword1 }
    ensures found { IfSome result (λ p. IsPage p × IsPageOf order index dword0 dword1 p) }
    ensures exact { (p : VirtualPage)
        → IsPage p
        → ((result ≡ Some p) ↔ SuitsPage order index dword0 dword1 p) }
{
    if dword0 & VALID != VALID {
        return None;
    }
    let size = decode(dword0, dword1)?;
    let low = hash_bits(u64::from(index / 8), secondary(dword0));
    let number = virtual_page_number(dword0);
    let page = rebuilt(one_tb(dword0), number, size.base, low)?;
    confirmed(page, order, index, dword0)
}

/// The low eleven bits of the hash of a page that has this group.
fn hash_bits(group: u64, secondary: bool) -> u64
    ensures { result ≡ low_hash group secondary }
{
    if secondary {
        !group & LOW_HASH
    } else {
        group & LOW_HASH
    }
}

/// The virtual address bits from weight 2^23 up, as a number.
pub fn virtual_page_number(dword0: u64) -> u64
    ensures value { result ≡ number_field dword0 }
    ensures in_range { result < 2 ^ 55 }
{
    dword0 >> 7 & VIRTUAL_PAGE_NUMBER
}

/// How many bits of the segment offset a virtual page number holds.
fn held_offset_bits(one_tb: bool) -> u32
    ensures { result ≡ offset_bits one_tb - 23 }
{
    offset_bits_of(one_tb) - LOWEST_BIT
}

/// The only page that can have this segment size, this virtual page number, this base page size
/// and these low bits of its hash.
fn rebuilt(one_tb: bool, number: u64, shift: u8, low: u64) -> Option<Page>
    requires number { number < 2 ^ 55 }
    requires shift { shift < 64 }
    requires low { low < 2 ^ 11 }
    ensures page { result ≡ rebuilt_page one_tb number shift low }
    ensures in_range { IfSome result (λ p. IsPage p) }
{
    let held = held_offset_bits(one_tb);
    let vsid = number >> held;
    let high = (number & ((1 << held) - 1)) << LOWEST_BIT;
    let index = low ^ (vsid & LOW_HASH);
    Page::of_address(
        one_tb,
        vsid,
        shift,
        high + ((index << shift) & ((1 << LOWEST_BIT) - 1)),
    )
}

/// The page, where its tag and its group are the entry's.
fn confirmed(page: Page, order: u8, index: u32, dword0: u64) -> Option<Page>
    requires order { IsTableOrder order }
    ensures { result ≡ confirmed_page order index dword0 page }
{
    let (first, second) = groups(&page, order);
    let group = if secondary(dword0) { second } else { first };
    if page.tag() == tag_of(dword0) && group == u64::from(index / 8) {
        Some(page)
    } else {
        None
    }
}
