//! Pages of the virtual address space of the Power architecture: segments of 256 MB and of 1 TB,
//! base pages of 4 KB, 64 KB, 16 MB and 16 GB, and the tag by which the hashed page table knows a
//! page.
//!
//! Power ISA 2.07 Book III-S, virtual address generation (segments) and virtual to real translation
//! (the abbreviated virtual page number, which is the tag).
//!
//! Main contracts: `Page::new` gives the page exactly if each part is in range; `of_address`;
//! `tag`.
#![tactic(auto)]

mod page;

pub use page::{Page, offset_bits_of, shift_in_range};
