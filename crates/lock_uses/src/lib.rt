//! Tests of the running table below the hypervisor calls, the walk and a processor's accesses,
//! which know nothing of it: they are generic over stores, and run over passes with their contracts
//! as they are. And a caller of [`pass_calls`], by whose clauses its own follow.
//!
//! Main contracts: `call_within`: the reply is the plan's.
#![tactic(auto)]

mod trying;

pub use trying::call_within;

#[cfg(test)]
mod tests;
