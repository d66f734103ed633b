//! How a set names its run lines in file order, although each partition keeps its own.

/// A run line of a set: of which partition it is, as its place in the order of `begin` lines, and
/// which of that partition's run lines it is, both counted from 0.
#[derive(Clone, Copy, PartialEq, Eq, Debug)]
pub struct Turn {
    /// The partition, counted from 0 in the order of `begin` lines.
    pub partition: u8,
    /// The run line, counted from 0 among the partition's own.
    pub line: u32,
}
