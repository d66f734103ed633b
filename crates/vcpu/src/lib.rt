//! One virtual processor at a hashed page table: its segments, its cached translations, and its
//! accesses to memory.
//!
//! Power ISA Book III, address translation: an effective address lies in a segment, the segment's
//! page is translated by a cached translation or by a walk of the page table, and the entry found
//! allows the access or denies it.
//!
//! Main contracts: `Cpu::access`: its receipts, its reply by a hit or a walk, and the cache after;
//! `Cpu::after_access`: the cache after an access that was made elsewhere.
#![tactic(auto)]

mod asking;
mod by_cache;
mod by_walk;
mod cpu;
mod cpus;
mod landing;
mod passing;

pub use asking::{key, operation};
pub use by_walk::kept_line;
pub use cpu::Cpu;
pub use cpus::{clear_caches, empty_cpus};
pub use landing::{outcome, outcome_at};
pub use passing::refill;
