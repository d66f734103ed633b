//! The causes for which a line of a file of cases counts as failed, each with its words.

use std::alloc::AllocError;

/// Why a line isn't passed.
#[derive(Clone, Copy)]
pub enum Miss {
    /// It says nothing that a case may say.
    Unknown,
    Memory,
    Status,
    Text,
}

impl From<AllocError> for Miss {
    fn from(_: AllocError) -> Self {
        Miss::Memory
    }
}

impl Miss {
    /// Why, in words.
    pub fn words(self) -> &'static str {
        match self {
            Miss::Unknown => "it says nothing that a case may say",
            Miss::Memory => "no memory",
            Miss::Status => "another status",
            Miss::Text => "another text",
        }
    }
}
