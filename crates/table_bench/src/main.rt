//! Operations on a table, by threads: the program that `bench/table` measures.
//!
//!     table_bench KIND THREADS PLACE ORDER TRIES
//!
//! KIND is `plain` (a plain table, one thread), `mutex` (a plain table behind one lock) or `lock`
//! (the running table). PLACE is `shared`, where all threads work on the same eight entries, or
//! `apart`, where each has its own part of the table. Each thread makes TRIES operations and the
//! program prints how many receipts it made. Without words it makes a few on a table of each kind,
//! as a test.
#![tactic(auto)]

mod kinds;
mod mix;
mod words;

use kinds::run_one;
use std::alloc::Global;
use std::process::ExitCode;
use std::sync::Wait;
use std::thread::Threads;
use words::{Kind, Run};

/// One line: how many receipts a run made.
fn show<R: Threads + Wait + Sync + Print>(rt: &R, alloc: Global, run: &Run) -> bool {
    match run_one(rt, alloc, run) {
        Some(made) => println!(rt; "{made}").is_ok(),
        None => false,
    }
}

/// A few operations on each kind of table.
fn show_all<R: Threads + Wait + Sync + Print>(rt: &R, alloc: Global) -> bool {
    let mut shown = true;
    for kind in [Kind::Plain, Kind::Mutex, Kind::Lock] {
        let run = Run {
            kind,
            threads: 2,
            apart: false,
            order: 18,
            tries: 1000,
        };
        shown = show(rt, alloc, &run) && shown;
    }
    shown
}

fn main(rt: HostRuntime) -> ExitCode {
    let done = match words::read(&rt) {
        Ok((true, _)) => show_all(&rt, rt.alloc()),
        Ok((false, Some(run))) => show(&rt, rt.alloc(), &run),
        _ => false,
    };
    if done {
        ExitCode::SUCCESS
    } else {
        ExitCode::FAILURE
    }
}
