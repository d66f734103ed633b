//! The two layouts of a page table entry in the Power ISA: the older of version 2.07, the newer of
//! 3.0.

/// The layout of an entry's two doublewords.
#[derive(Clone, Copy, PartialEq, Eq, Debug)]
pub enum Layout {
    /// That of the Power ISA, version 2.07, Book III-S, "Page Table Entry": B is in
    /// doubleword 0.
    Old,
    /// That of version 3.0, Book III, "Hashed Page Table Entry": B is in doubleword 1, and
    /// doubleword 0 has 52 bits.
    New,
}
