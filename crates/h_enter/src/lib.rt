//! H_ENTER of LoPAR, over any store of page table entries. What the call tries, and what it
//! answers, is its plan (`call_plan`).
//!
//! Main contracts: `h_enter` is the reply that its receipts give, by `h_enter_plan`; `enter_words`
//! the same after the checks.
#![tactic(auto)]

mod entering;

pub use entering::{enter_words, h_enter};
