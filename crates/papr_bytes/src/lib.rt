//! papr on bytes: what the program does with its words, its standard input and its standard output,
//! as one function on memory of the caller's, for C and for a page. `include/papr_bytes.h` is the
//! same in C.
//!
//! The words are those after the program's name, and the input stands for standard input. What the
//! program writes is put into the caller's room. Nothing is kept between two calls.
//!
//! Main contracts: `papr_bytes_call`: the clause of `papr_serial`, for an input in memory and the
//! caller's output buffer.
#![tactic(auto)]

mod call;
mod call_end;
mod kept_sink;
mod words;
