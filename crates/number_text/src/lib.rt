//! The texts of numbers, byte for byte, and how much of a string's room a text takes.
//!
//! Main contracts: `put_hexadecimal`, `put_decimal`, `put_signed`: byte for byte.
#![tactic(auto)]

mod numbers;

pub use numbers::{put_decimal, put_hexadecimal, put_signed, write_hexadecimal, write_piece};
