//! Tests of the crates of words: [`page_sizes`], [`power_addr`], [`storage_prot`], [`papr_codes`],
//! [`hpte_fields`], [`hpt_hash`], [`slb_model`] and [`tlb_model`]. They are here since the gate
//! proves a crate that has tests twice.
#![tactic(auto)]

#[cfg(test)]
mod addresses;
#[cfg(test)]
mod caches;
#[cfg(test)]
mod codes;
#[cfg(test)]
mod fields;
#[cfg(test)]
mod hashes;
#[cfg(test)]
mod protection;
#[cfg(test)]
mod segments;
#[cfg(test)]
mod sizes;
