//! The fields of the two doublewords of a page table entry, in the layout of
//! Power ISA 2.07 Book III-S, section 5.7.7.1, which the hypervisor calls of LoPAR use, and the
//! size of a table of such entries.
//!
//! Main contracts: each reader is its field; `normal`: the words that H_ENTER stores, which it
//! gives back unchanged; `protected`: H_PROTECT's fields.
#![tactic(auto)]

mod bits;
mod first;
mod laws;
mod second;
mod stored;
mod table_size;

pub use bits::{BOLTED, CHANGED, REFERENCED, RESERVED, SECONDARY, TAG, VALID};
pub use first::{bolted, one_tb, secondary, tag_of};
pub use laws::constants_are_as_defined;
pub use pool_range::{GREATEST_ORDER, LEAST_ORDER};
pub use second::{frame, key, no_execute, pp, protected, wimg};
pub use stored::normal;
pub use table_size::{
    GREATEST_ARCHITECTED_ORDER, GROUP_SIZE, entry_count, is_architected_order, is_table_order,
};
