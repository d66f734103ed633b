//! The check that lent entries are a whole table: as many as its order says.
ghost use Rattle.std.specs.Prelude.{◌≡◌};
ghost use Rattle.c_layout.specs.Entries.{states_of};
ghost use Rattle.c_layout.specs.Tables.{is_table};

use crate::entry::PaprEntry;
use hpte_fields::is_table_order;

/// Whether the entries are all those of one table of `2^order` bytes.
pub fn is_table(entries: &[PaprEntry], order: u8) -> bool
    ensures { result ≡ Rattle.c_layout.specs.Tables.is_table order (states_of entries.now) }
{
    is_table_order(order) && entries.len() == 1 << (order - 4)
}
