//! H_EXACT, H_READ_4, H_AVPN and H_ANDCOND, as they are set in a call's first argument.
ghost use Rattle.std.specs.Prelude.{⊤, ℕ, ◌≡◌, bit_and, [], ◌∷◌, codes};
ghost use Rattle.papr_codes.specs.FlagBits.{known_flags, has_flag};

use bitflags::{Flag, Flags, bitflag_items};

/// The flags of a hypervisor call on the page table, as bits of its first argument.
#[derive(Clone, Copy, PartialEq, Eq, Debug)]
pub struct CallFlags(u64);

bitflag_items! {
    impl CallFlags: u64 {
        /// H_EXACT: the entry is the one that the index names.
        const EXACT = 0x80_0000_0000;
        /// H_READ_4: read four entries.
        const READ_4 = 0x20_0000_0000;
        /// H_AVPN: go on only where the abbreviated virtual page number is the one given.
        const AVPN = 0x8000_0000;
        /// H_ANDCOND: go on only where the entry has none of the bits given.
        const AND_COND = 0x4000_0000;
    }
}

impl Flags for CallFlags {
    type Bits = u64;

    ghost exact = { ⊤ };

    ghost table = { (codes "EXACT", 0x8000000000)
        ∷ (codes "READ_4", 0x2000000000)
        ∷ (codes "AVPN", 0x80000000)
        ∷ (codes "AND_COND", 0x40000000)
        ∷ [] };

    ghost set_of = { λ flags. flags.0 };

    fn flags<'a>() -> &'a [Flag<CallFlags>] {
        CallFlags::FLAGS
    }

    fn bits(&self) -> u64 {
        self.0
    }

    fn from_bits_retain(bits: u64) -> CallFlags {
        CallFlags(bits)
    }
}

impl CallFlags {
    /// The flags in a call's first argument. Its other bits are ignored.
    pub fn of(word: u64) -> CallFlags
        ensures kept { result.0 ≡ bit_and word known_flags }
        ensures same_tests { (one : ℕ) → bit_and one known_flags ≡ one
            → has_flag result.0 one ≡ has_flag word one }
    {
        CallFlags::from_bits_truncate(word)
    }

    /// Whether all bits of `one` are set.
    pub fn has(&self, one: CallFlags) -> bool
        ensures { result ≡ has_flag self.now.0 one.0 }
    {
        self.contains(one)
    }
}
