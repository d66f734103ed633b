//! One access of a processor to memory, before it is translated.
use authority_mask::Masks;
use storage_prot::Want;

/// What an access asks.
#[derive(Clone, Copy, PartialEq, Eq, Debug)]
pub struct Request {
    /// Load, store or instruction fetch.
    pub want: Want,
    /// The effective address.
    pub ea: u64,
    /// Whether the processor is in problem state.
    pub user: bool,
    /// The processor's authority masks.
    pub masks: Masks,
}
