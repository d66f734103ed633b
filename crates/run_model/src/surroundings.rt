//! What a call on a store of entries needs to know apart from the entries.
use bus_window::Window;
use frame_grants::Grants;
use std::marker::Model;

/// What the calls on a store of entries depend on: the granted memory, and the DMA window whose
/// entries the store has. The entries of the page table are no window's.
#[derive(Drop)]
pub struct Surroundings<'a> {
    /// The granted memory.
    pub grants: &'a Grants,
    /// `None` for the page table.
    pub window: Option<Window>,
}

impl<'a> Model for Surroundings<'a> {
    ghost use Rattle.run_model.specs.StoreContexts.{StoreSurroundings};

    ghost Value = { StoreSurroundings };

    ghost view = { λ s. record { grants = s.grants.now.grants; window = s.window } };
}
