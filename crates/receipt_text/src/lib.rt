//! The text of receipts, byte for byte, and the marks that are read back from it: what a reply's
//! line shows of each receipt.
//!
//! Main contracts: `put_receipts`: byte for byte; `marks_of`: the marks of a line, or `None`
//! exactly if what follows its bar isn't 1 to 16 marks in their spelling.
#![tactic(auto)]

mod cuts;
mod digits;
mod laws;
mod mark;
mod marks;
mod receipts;

pub use cuts::split_at;
pub use laws::receipts_are_read_back;
pub use mark::{Mark, Marks};
pub use marks::marks_of;
pub use receipts::put_receipts;
