//! DMA windows: a device reaches memory through translation control entries (TCE) that the guest
//! sets.
//!
//! LoPAR, H_PUT_TCE and H_GET_TCE. A window's entries are kept in a store of page table entries, so
//! they have stamps, receipts and histories as those have. Each call is a plan: which operations it
//! makes, and which reply their receipts give.
//!
//! Main contracts: `put_tce`, `get_tce`, `device`: each reply is the one of its receipts, over any
//! store; H_BUSY exactly if its Enter found the entry taken.
#![tactic(auto)]

mod accesses;
mod laws;
mod making;
mod tce;
mod tce_calls;
mod tce_plan;

pub use accesses::{device, device_into, outcome_by};
pub use laws::{
    busy_exactly_where_taken, kept_words_are_read_back, never_busy_alone, permitted_accesses_land,
    tces_have_pages, ungranted_exactly_where,
};
pub use tce::{address, entering, is_ram, permits, tce_of};
pub use tce_calls::{code_of, get_tce, put_tce, run_tce_plan};
pub use tce_plan::{TcePlan, get_tce_plan, put_tce_plan};
