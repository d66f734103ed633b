//! What an actor keeps of a valid entry that it has seen: index, stamp and doublewords.

/// An entry as an actor has seen it, valid and with these doublewords at this stamp: a cached
/// translation without its page.
#[derive(Clone, Copy, PartialEq, Eq, Debug)]
pub struct Sighting {
    /// The entry's index in its table.
    pub entry: u32,
    /// The entry's stamp when it was seen.
    pub stamp: u32,
    /// Doubleword 0 as it was then.
    pub dword0: u64,
    /// Doubleword 1, with R and C clear.
    pub dword1: u64,
}
