//! The outcome of one line for the caller of a reader: what it gives, or why it gives nothing.
use crate::why::Why;
use frame_grants::Grant;

/// What an accepted line gives.
#[derive(Clone, Copy, PartialEq, Eq, Debug)]
pub enum Given {
    /// Nothing: a remark, or a line without words.
    Remark,
    /// A value of the configuration, an entry of the opening table, or a window.
    Setting,
    /// Memory: the grant that the line names.
    Grant(Grant),
    /// The end of the configuration.
    Begin {
        /// The binary logarithm of the size of the opening table in bytes.
        order: u8,
    },
    /// A run line, of a processor or a dump.
    Run,
}

/// Why a line gives nothing.
#[derive(Clone, Copy, PartialEq, Eq, Debug)]
pub enum LineRefused {
    /// The line is refused.
    Refused {
        /// The reason.
        why: Why,
        /// The grant that the line names, where it meets the pool of page tables.
        grant: Option<Grant>,
    },
    /// There is not enough memory.
    Memory,
}
