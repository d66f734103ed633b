//! Words and lemmas on truth values and lists that several crates share and std lacks.
//!
//! There is no code here: `specs/Words.antt` has what contracts cite, and `proofs/Lists.antt` the
//! lemmas.
#![tactic(auto)]
