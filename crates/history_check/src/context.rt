//! The store that a section is judged on: the page table or the entries of a DMA window.
use bus_window::Window;
use frame_grants::Grants;
use std::marker::Model;

/// What the lines of a section on one store of entries have in common: the binary logarithm of the
/// store's size in bytes, the granted memory, and the DMA window whose entries the store has. The
/// entries of the page table are no window's.
#[derive(Drop)]
pub struct Context<'a> {
    /// The table's order: it has `2^order` bytes.
    pub order: u8,
    /// The granted memory.
    pub grants: &'a Grants,
    /// `None` for the page table.
    pub window: Option<Window>,
}

impl<'a> Model for Context<'a> {
    ghost use Rattle.hpte_fields.specs.TableSize.{IsTableOrder};
    ghost use Rattle.run_model.specs.StoreContexts.{StoreContext};

    ghost Value = { StoreContext };

    ghost view = { λ c.
        record { order = c.order; grants = c.grants.now.grants; window = c.window } };

    ghost invariant = { λ c. IsTableOrder c.order };
}
