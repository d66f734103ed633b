//! Tests of [`trace_runner`], in a crate of their own: the gate proves a crate that has tests
//! twice. Its `proofs/` has worked rows of serial runs, on which the program doesn't depend.
#![tactic(auto)]

#[cfg(test)]
mod tests;
