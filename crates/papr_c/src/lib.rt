//! papr for C and for Rust: the hypervisor calls on page table entries, the walk and the rehash,
//! over a table in the caller's memory. `include/papr.h` is the same in C.
//!
//! The caller owns the entries and lends them for the length of one call. Nothing is allocated, and
//! no pointer is kept. What the caller owes is in `docs/LIBRARY.md`.
//!
//! Main contracts: each of `papr_h_enter` to `papr_h_bulk_remove`: the code, the words, the
//! receipts and the entries are those of the plan's run, as far as the caller's arrays go, and a
//! wrong count or order changes nothing; `papr_hcall`, a call by its number; `papr_walk` and
//! `papr_probe`; `papr_decode`, `papr_rights`; `papr_rehash`; `papr_resize_prepare` and
//! `papr_resize_commit`, which are the calls over a pool by two laws; of each of these, which
//! entries are marked then, and `papr_take_changed`, with the law that each marked entry is named
//! once; `papr_export` and `papr_import`, with the law of their round trip; `papr_slb_mte`,
//! `papr_slb_find`; `papr_put_tce`, `papr_get_tce`, `papr_device`; `papr_make_grants`,
//! `papr_machine_of`; and the laws of `laws.rt`.
#![tactic(auto)]

mod bulk;
mod decoding;
mod enter;
mod exporting;
mod granting;
mod hcall;
mod importing;
mod laws;
mod probing;
mod read;
mod rehashing;
mod removals;
mod resizing;
mod rights;
mod running;
mod segments;
mod single;
mod taking;
mod transfer;
mod trying;
mod version;
mod walking;
mod windows;
