//! The parts of an entry's control word: lock, shut, valid, R, C and stamp.

/// The control word of an entry, read as its parts.
#[derive(Clone, Copy, PartialEq, Eq, Debug)]
pub struct Control {
    /// An actor holds the entry.
    pub locked: bool,
    /// The actor that holds the entry changes it: its words aren't read.
    pub shut: bool,
    /// V: the entry translates a page.
    pub valid: bool,
    /// R: the page was referenced.
    pub referenced: bool,
    /// C: the page was changed.
    pub changed: bool,
    /// How often the entry has changed; the R and C that accesses set don't count.
    pub stamp: u32,
}
