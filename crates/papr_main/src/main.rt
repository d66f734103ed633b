//! The program `papr`: hands its words, standard input and standard output to [`papr_top::papr`]
//! where the word is `par`, and else to [`papr_top::papr_serial`], which always returns. It ends
//! with the status, and prints nothing itself.
#![tactic(auto)]

use papr_edge::{Command, command_of};
use papr_top::{OpenGate, Status, papr, papr_serial};
use std::alloc::Global;
use std::env;
use std::io::{self, ErrorKind};
use std::process::ExitCode;
use std::rt::Env;
use trace_io::{StdSink, StdSource};

/// The words after the program's name.
fn words(rt: &(impl Env + Alloc<A = Global>)) -> io::Result<Vec<String>> {
    Ok(env::args(rt)?.skip(1).collect(rt.alloc())?)
}

fn main(rt: HostRuntime) -> ExitCode {
    let words = match words(&rt) {
        Ok(words) => words,
        // A word that isn't text is a wrong word. So is a list of no words, which is used for it.
        Err(error) if error.kind() == ErrorKind::InvalidData => Vec::new(rt.alloc()),
        Err(_) => return ExitCode::from(Status::Memory.number()),
    };
    let mut source = StdSource::new(rt.stdin());
    let mut sink = StdSink::new(rt.stdout());
    let status = match command_of(&words) {
        Some(Command::Par) => papr(&rt, rt.alloc(), &words, &mut source, &mut sink, &OpenGate),
        _ => papr_serial(rt.alloc(), &words, &mut source, &mut sink),
    };
    ExitCode::from(status.number())
}
