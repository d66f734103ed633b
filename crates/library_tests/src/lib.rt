//! Tests of the libraries that read traces and write replies: what no text of the program shows.
//! What one shows is a row of `papr_rows`.
#![tactic(auto)]

#[cfg(test)]
mod numbered;
#[cfg(test)]
mod replies;
#[cfg(test)]
mod sets;
#[cfg(test)]
mod traces;
