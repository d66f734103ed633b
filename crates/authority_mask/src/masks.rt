//! AMR and IAMR of a processor: in each 32 fields of two bits, one for each key.
ghost use Rattle.std.specs.Prelude.{◌≡◌};
ghost use Rattle.authority_mask.specs.Authority.{no_masks, with_mask};

/// One of the two masks.
#[derive(Clone, Copy, PartialEq, Eq, Debug)]
pub enum MaskName {
    /// The authority mask register, for loads and stores.
    Amr,
    /// The instruction authority mask register, for instruction fetches.
    Iamr,
}

/// The two masks of a processor. Key 0 has the top two bits of each, key 31 the lowest two.
#[derive(Clone, Copy, PartialEq, Eq, Debug)]
pub struct Masks {
    /// Of a key's two bits the first refuses stores and the second loads.
    pub amr: u64,
    /// Of a key's two bits the second refuses instruction fetches.
    pub iamr: u64,
}

/// Masks that refuse nothing.
impl Default for Masks {
    ghost is_default = { λ masks. masks ≡ no_masks };

    fn default() -> Self {
        Masks { amr: 0, iamr: 0 }
    }
}

impl Masks {
    /// Gives one of the masks this value.
    pub fn set(&mut self, name: MaskName, value: u64)
        ensures { self.new ≡ with_mask self.old name value }
    {
        match name {
            MaskName::Amr => self.amr = value,
            MaskName::Iamr => self.iamr = value,
        }
    }
}
