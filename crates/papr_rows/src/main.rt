//! Runs the program's calls over cases: words and an input, and the status and the text that must
//! result. The first word names the file of the cases, whose head lists its commands. A line is
//! written for each row of cases, and the last line counts the runs; the exit status is 1 where one
//! failed or a line couldn't be read.
#![tactic(auto)]

mod case;
mod copies;
mod miss;
mod rows;
mod running;

use rows::take_lines;
use std::process::ExitCode;
use std::{env, fs, io};

fn main(rt: HostRuntime) -> io::Result<ExitCode> {
    let path = env::args(&rt)?.nth(1).unwrap_or(String::new(rt.alloc()));
    let text = fs::read_to_string(&rt, path.as_str())?;
    let failed = take_lines(&rt, text.as_str())?;
    Ok(ExitCode::from((failed > 0) as u8))
}
