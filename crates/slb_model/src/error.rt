//! The causes for which `slbmte` is refused: the slot's number, the segment's size or the base page
//! size.

/// Why the words of an `slbmte` are refused.
#[derive(Clone, Copy, PartialEq, Eq, Debug)]
pub enum BadSlb {
    /// There is no slot of that number.
    Slot,
    /// B is neither 0 (256 MB) nor 1 (1 TB).
    SegmentSize,
    /// L and LP encode no base page size, or one that a segment of this size can't have.
    PageSize,
}
