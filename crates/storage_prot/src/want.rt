//! The three kinds of access: load, store and instruction fetch.
ghost use Rattle.std.specs.Prelude.{◌≡◌};

/// What an access wants to do.
#[derive(Clone, Copy, PartialEq, Eq, Debug)]
pub enum Want {
    /// Read data.
    Load,
    /// Write data.
    Store,
    /// Read an instruction.
    Fetch,
}

impl Default for Want {
    ghost use Rattle.storage_prot.specs.declared.want.Want.TheVariants.{Load};

    ghost is_default = { λ want. want ≡ Load };

    fn default() -> Self {
        Want::Load
    }
}
