//! Tests of the crates of what a hypervisor holds: [`frame_grants`], [`hpt_pool`], [`table_image`],
//! [`papr_table`], [`partition`] and [`trace_gen`]. They are here since the gate proves a crate
//! that has tests twice.
#![tactic(auto)]

#[cfg(test)]
mod generated;
#[cfg(test)]
mod grants;
#[cfg(test)]
mod images;
#[cfg(test)]
mod partitions;
#[cfg(test)]
mod pool;
#[cfg(test)]
mod tables;
