//! Why a try made no receipt: its entry, and the control words that it noted and found there.

/// The answer of a try that made no receipt, because another pass was at the entry.
#[derive(Clone, Copy, PartialEq, Eq, Debug)]
pub struct Busy {
    /// The entry of the call.
    pub entry: u32,
    /// The control word that the call noted. At a lock step and a first look it is the word found.
    pub looked: u64,
    /// The control word that its last step found.
    pub found: u64,
}
