//! papr for C, the running table: hypervisor calls and walks of several threads at once on one
//! table, with no lock around them. `include/papr_shared.h` is the same in C.
//!
//! Each thread has a pass, and no call waits. A call that finds an entry busy is kept by its pass,
//! and goes on later.
//!
//! Main contracts: each `papr_try_..` and `papr_again`: `IsCall`, `IsAgain`; `papr_try_walk`,
//! `papr_walk_again`; `papr_open`, `papr_split`, `papr_join`, `papr_close` with each code.
#![tactic(auto)]

mod again;
mod enter;
mod handing;
mod hcall;
mod held_up;
mod opening;
mod passes;
mod pending;
mod removals;
mod single;
mod trying;
mod walking;
