//! Which orders a hashed page table may have, and how many entries it then has.
ghost use Rattle.std.specs.Prelude.{◌≡◌, ◌≤◌};
ghost use Rattle.hpte_fields.specs.TableSize as table;

use pool_range::{GREATEST_ORDER, LEAST_ORDER};

/// The entries of a page table entry group (PTEG).
pub const GROUP_SIZE: u32 = 8;

/// The order of the largest table that the architecture has. A guest may ask for such a one.
pub const GREATEST_ARCHITECTED_ORDER: u8 = 46;

/// Whether there are tables of `2^order` bytes.
pub fn is_table_order(order: u8) -> bool
    ensures { result ≡ table.is_table_order order }
{
    LEAST_ORDER <= order && order <= GREATEST_ORDER
}

/// Whether the architecture has tables of `2^order` bytes.
pub fn is_architected_order(order: u64) -> bool
    ensures { result ≡ table.is_architected_order order }
{
    u64::from(LEAST_ORDER) <= order && order <= u64::from(GREATEST_ARCHITECTED_ORDER)
}

/// How many entries a table of `2^order` bytes has. An entry has 16 bytes.
pub fn entry_count(order: u8) -> u32
    requires low { 4 ≤ order }
    requires high { order ≤ 35 }
    ensures { result ≡ table.entry_count order }
{
    1 << (order - 4)
}
