//! The numbers of the hypervisor calls on the page table and on DMA windows, their return codes and
//! their flags.
//!
//! They are those of the Linux on Power Architecture Reference (LoPAR); the two resize calls have
//! the numbers that Linux uses.
//!
//! Main contracts: `Hcall::of_number` and `number`: the table, both ways; `Rc::code`; `CallFlags`.
#![tactic(auto)]

mod calls;
mod codes;
mod flag_bits;

pub use calls::Hcall;
pub use codes::Rc;
pub use flag_bits::CallFlags;
