//! The two page sizes of an entry: that of the base page, and that of the real page that it maps.

/// The sizes of a page, as binary logarithms of bytes: 12 is 4 KB, 16 is 64 KB, 24 is 16 MB, 34 is
/// 16 GB.
#[derive(Clone, Copy, PartialEq, Eq, Debug)]
pub struct PageSize {
    /// The base page size, by which the segment is divided and hashed.
    pub base: u8,
    /// The size of the real page that the entry maps.
    pub actual: u8,
}
