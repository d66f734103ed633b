//! A hypervisor call with its arguments as a value: which entries it tries with which operation,
//! after which answers it goes on to the next, and what its receipts tell.
//!
//! Each call of LoPAR on page table entries has a function that gives its [`CallPlan`], and
//! [`run_plan`] makes any of these on any store of entries.
//!
//! Main contracts: `plan_of_hcall`, and `enter_plan` to `bulk_remove_plan`: the value is the
//! definition's plan, and fits a table of this order; `run_plan`: the reply is the plan's.
#![tactic(auto)]

mod bulk;
mod entering;
mod numbered;
mod plan;
mod reading;
mod removals;
mod running;
mod shown;
mod single;
mod telling;

pub use bulk::{Asked, answered, asked_by, ill_formed, removal_registers};
pub use entering::{enter_plan, words_plan};
pub use numbered::plan_of_hcall;
pub use plan::{CallPlan, Told, Trial};
pub use reading::read_plan;
pub use removals::{Removals, bulk_remove_plan};
pub use running::{reply_plan, run_plan};
pub use shown::ShownWords;
pub use single::{clear_mod_plan, clear_ref_plan, protect_plan, remove_plan};
pub use telling::{answered_registers, entered_registers, told_registers};
