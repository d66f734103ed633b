//! What the segment lookaside buffer gives for an effective address: the page, Ks, Kp and N.
use power_addr::Page;

/// The segment in which an effective address lies.
#[derive(Clone, Copy, PartialEq, Eq, Debug)]
pub struct Segment {
    /// The page that the address lies in, of the segment's base page size.
    pub page: Page,
    /// The key of an access in privileged state.
    pub ks: bool,
    /// The key of an access in problem state.
    pub kp: bool,
    /// Whether the segment refuses instruction fetches (N).
    pub no_execute: bool,
}
