//! Rows of cases, one after the other: their runs are made and counted, and a line is written for
//! each row and each failure.

use crate::case::Case;
use crate::miss::Miss;
use std::alloc::Global;
use std::io;
use std::sync::Wait;
use std::thread::Threads;

/// Takes the lines of a file, writes the result of each row, and gives how many runs failed.
pub fn take_lines<R: AllocGlobal + Print + Threads + Wait + Sync>(
    rt: &R,
    text: &str,
) -> io::Result<u64> {
    let mut rows = Rows::new(rt.alloc());
    for line in text.split('\n') {
        rows.take(rt, line)?;
    }
    println!(rt; "{} passed, {} failed", rows.passed, rows.failed)?;
    Ok(rows.failed)
}

/// The row at work, and how many runs passed and failed so far.
#[derive(Drop)]
struct Rows<'a> {
    alloc: Global,
    name: &'a str,
    case: Case,
    /// The number of the line.
    line: u64,
    /// The runs of the row that passed.
    runs: u64,
    passed: u64,
    failed: u64,
}

impl<'a> Rows<'a> {
    /// Before the first line.
    fn new(alloc: Global) -> Self {
        Rows {
            alloc,
            name: "",
            case: Case::new(alloc),
            line: 0,
            runs: 0,
            passed: 0,
            failed: 0,
        }
    }

    /// Takes a line. One that can't be read counts as a run that failed.
    fn take<R: AllocGlobal + Print + Threads + Wait + Sync>(
        &mut self,
        rt: &R,
        line: &'a str,
    ) -> io::Result<()> {
        self.line = self.line.saturating_add(1);
        let (command, said) = line.split_once(' ').unwrap_or((line, ""));
        if command == "end" {
            return self.tell_row(rt);
        }
        match self.obey(rt, command, said) {
            Ok(()) => Ok(()),
            Err(miss) => self.tell_miss(rt, miss),
        }
    }

    fn obey<R: AllocGlobal + Threads + Wait + Sync>(
        &mut self,
        rt: &R,
        command: &str,
        said: &'a str,
    ) -> Result<(), Miss> {
        match command {
            "" | "#" => {}
            "row" => {
                self.name = said;
                self.case = Case::new(self.alloc);
                self.runs = 0;
            }
            "run" => {
                self.case.check(rt)?;
                self.runs = self.runs.saturating_add(1);
                self.passed = self.passed.saturating_add(1);
            }
            _ => self.case.take(self.alloc, command, said)?,
        }
        Ok(())
    }

    fn tell_miss(&mut self, rt: &impl Print, miss: Miss) -> io::Result<()> {
        self.failed = self.failed.saturating_add(1);
        println!(rt;
            "FAILED {}, line {}: {}",
            self.name,
            self.line,
            miss.words()
        )
    }

    fn tell_row(&self, rt: &impl Print) -> io::Result<()> {
        println!(rt; "{}: {}", self.name, self.runs)
    }
}
