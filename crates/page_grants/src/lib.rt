//! Which pages a guest may map: those that one grant holds whole, with storage control bits that
//! suit what lies there.
//!
//! Main contracts: `entered_words`: the words that H_ENTER stores, or none if they can't be stored
//! or no grant has their page; `suits_grants`.
#![tactic(auto)]

mod granted;
mod suited;

pub use granted::GrantedMemory;
pub use suited::{entered_words, suits_grants};
