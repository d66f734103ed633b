//! What an image lists of an entry: its index, and its doublewords in the older layout.

/// A valid entry of a table, as an image lists it.
#[derive(Clone, Copy, PartialEq, Eq, Debug)]
pub struct ImageEntry {
    /// Its index in the table.
    pub index: u32,
    /// Doubleword 0, in the older layout.
    pub dword0: u64,
    /// Doubleword 1, in the older layout, with R and C.
    pub dword1: u64,
}
