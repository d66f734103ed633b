//! The memory that is granted to the guest.
//!
//! A guest names memory by logical addresses. The hypervisor grants it ranges of these, each with a
//! machine range of the same length. A page of the guest's page table must lie wholly within one
//! grant.
//!
//! Main contracts: `add` refuses for six causes in order; `list`: no grant overlaps another or the
//! pool; `machine_of`: the machine address, by the grant that has the range.
#![tactic(auto)]

mod error;
mod grant;
mod grants;
mod range;

pub use error::GrantError;
pub use grant::{Grant, Kind};
pub use grants::{Grants, MOST_GRANTS};
