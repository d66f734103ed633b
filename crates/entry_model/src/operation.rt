//! The operations on one page table entry, their answers, and the tests of doubleword 0 that
//! hypervisor calls demand.
use authority_mask::Masks;
use storage_prot::Want;

/// What a hypervisor call demands of doubleword 0 before it touches an entry.
#[derive(Clone, Copy, PartialEq, Eq, Debug)]
pub struct Test {
    /// H_AVPN: doubleword 0 without its low seven bits has to be this word.
    pub avpn: Option<u64>,
    /// H_ANDCOND: none of these bits may be set in doubleword 0.
    pub andcond: Option<u64>,
}

/// The test that every valid entry passes.
pub const NO_TEST: Test = Test {
    avpn: None,
    andcond: None,
};

/// An operation on one entry.
#[derive(Clone, Copy, PartialEq, Eq, Debug)]
pub enum Op {
    /// Puts these doublewords into an empty entry. They are words that `hpte_fields::normal` gave.
    Enter {
        dword0: u64,
        dword1: u64,
    },
    /// Empties an entry that passes the test.
    Remove {
        test: Test,
    },
    /// Replaces the protection of an entry that passes the test, by H_PROTECT's flags.
    Protect {
        test: Test,
        flags: u64,
    },
    /// Shows an entry.
    Read,
    /// Clears R.
    ClearRef,
    /// Clears C.
    ClearMod,
    /// Uses the translation of an entry for an access of the processor, and records it in R and C.
    Access {
        /// The page's tag, with the H and V bits that the entry must have.
        tag: u64,
        /// The base page size, as a binary logarithm of bytes.
        base: u8,
        /// The segment's key for the state of the processor.
        key: bool,
        /// Whether the segment refuses instruction fetches.
        no_execute: bool,
        want: Want,
        /// The processor's authority masks.
        masks: Masks,
    },
}

/// What an entry answers to an operation.
#[derive(Clone, Copy, PartialEq, Eq, Debug)]
pub enum Answer {
    /// The entry was empty, and has the words now.
    Entered,
    /// The entry was valid already.
    Taken,
    Removed,
    Protected,
    /// R or C was cleared; the receipt's state before says what they were.
    Was,
    /// The entry was read.
    Words,
    /// The entry is empty, or fails the test.
    NotFound,
    /// The entry doesn't translate the page of the access.
    NoMatch,
    /// The entry translates the page, and its protection refuses the access.
    Denied,
    /// The entry translates the page and its protection allows the access, and a mask of the
    /// processor refuses it for the entry's key.
    Masked,
    /// The access is allowed, and R, and for a store C, is set.
    At,
    /// The entry's stamp is at its last value, so that it can't change.
    Worn,
}

impl Op {
    ghost use Rattle.std.specs.Prelude.{◌≡◌};
    ghost use Rattle.entry_model.specs.Receipt.{is_access};

    /// Whether the operation is an access.
    #[inline(always)]
    pub fn is_access(&self) -> bool
        ensures { result ≡ is_access self.now }
    {
        matches!(*self, Op::Access { .. })
    }
}

impl Answer {
    ghost use Rattle.std.specs.Prelude.{◌≡◌};
    ghost use Rattle.entry_model.specs.Receipt.{is_change};

    /// Whether the entry was changed, other than by an access. Its stamp was raised then.
    #[inline(always)]
    pub fn is_change(self) -> bool
        ensures { result ≡ is_change self }
    {
        matches!(
            self,
            Answer::Entered | Answer::Removed | Answer::Protected | Answer::Was
        )
    }
}
