//! What a rehash reads states from and writes them to: an entry's state by itself, or a larger
//! value that has one.
ghost use Rattle.std.specs.Prelude.{◌≡◌};
ghost use Rattle.entry_model.specs.State.{State};

use entry_model::EntryState;

/// What holds the state of an entry, and maybe more.
pub trait StateHolder {
    /// The state that it holds.
    ghost held: { Self → State };

    /// The same holder with this state instead of its own.
    ghost holding: { Self → State → Self };

    /// The state that it holds.
    fn state(&self) -> EntryState
        ensures { result ≡ held self.now };

    /// Takes this state instead of the one that it holds.
    fn hold(&mut self, state: &EntryState)
        ensures { self.new ≡ holding self.old state.now };

    /// What it was given is what it holds.
    ghost given: { (h : Self) (s : State) → held (holding h s) ≡ s };

    /// What it holds already doesn't change it.
    ghost stays: { (h : Self) → holding h (held h) ≡ h };
}

impl StateHolder for EntryState {
    ghost held = { λ s. s };

    ghost holding = { λ h s. s };

    #[inline]
    fn state(&self) -> EntryState {
        *self
    }

    #[inline]
    fn hold(&mut self, state: &EntryState) {
        *self = *state;
    }

    ghost use Rattle.std.specs.Prelude.{refl};

    ghost given = { λ h s. refl };

    ghost stays = { λ h. refl };
}
