//! The 39-bit hash of a page, and the two groups that it gives in a table of some order.
ghost use Rattle.std.specs.Prelude.{◌≡◌, ◌≢◌, ◌<◌, ◌≤◌, ◌-◌, ◌^◌, true, false};
ghost use Rattle.power_addr.specs.Pages.{vsid_bits};
ghost use Rattle.hpt_hash.specs.Hash.{hash_of, mixed_bits, group_of};
ghost use Rattle.hpte_fields.specs.TableSize.{greatest_architected_order, group_count, least_order};

use power_addr::Page;

/// The hash has 39 bits.
const HASH_MASK: u64 = (1 << 39) - 1;

/// How far the segment's number of a 1 TB segment is shifted before it is mixed into the hash.
const LARGE_SEGMENT_SHIFT: u32 = 25;

/// The primary and the secondary group of a page in a table of `2^order` bytes.
pub fn groups(page: &Page, order: u8) -> (u64, u64)
    requires order_low { least_order ≤ order }
    requires order_high { order ≤ greatest_architected_order }
    ensures primary { result.0 ≡ group_of page.now order false }
    ensures secondary { result.1 ≡ group_of page.now order true }
    ensures apart { result.0 ≢ result.1 }
    ensures primary_in_table { result.0 < group_count order }
    ensures secondary_in_table { result.1 < group_count order }
{
    let mask = (1 << (order - 7)) - 1;
    let hash = hash(page);
    (hash & mask, !hash & mask)
}

fn hash(page: &Page) -> u64
    ensures { result ≡ hash_of page.now }
{
    mixed(page.one_tb(), page.vsid(), page.index()) & HASH_MASK
}

fn mixed(one_tb: bool, vsid: u64, index: u64) -> u64
    requires { vsid < 2 ^ vsid_bits one_tb }
    ensures { result ≡ mixed_bits one_tb vsid index }
{
    if one_tb {
        vsid ^ (vsid << LARGE_SEGMENT_SHIFT) ^ index
    } else {
        vsid ^ index
    }
}
