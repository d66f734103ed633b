//! The command line of the program: the kind of table, and the threads, place, order and tries.
use std::alloc::Global;
use std::rt::Env;
use std::{env, io};

/// A kind of table.
#[derive(Clone, Copy, PartialEq, Eq)]
pub enum Kind {
    Plain,
    Mutex,
    Lock,
}

/// One run.
#[derive(Clone, Copy)]
pub struct Run {
    /// Which table is measured.
    pub kind: Kind,
    /// How many threads there are.
    pub threads: u32,
    /// Whether each thread has a part of the table to itself.
    pub apart: bool,
    /// The binary logarithm of the size of the table in bytes.
    pub order: u8,
    /// How many operations each thread tries.
    pub tries: u32,
}

fn kind_of(word: &str) -> Option<Kind> {
    match word {
        "plain" => Some(Kind::Plain),
        "mutex" => Some(Kind::Mutex),
        "lock" => Some(Kind::Lock),
        _ => None,
    }
}

fn place_of(word: &str) -> Option<bool> {
    match word {
        "apart" => Some(true),
        "shared" => Some(false),
        _ => None,
    }
}

fn run_of(words: &[String]) -> Option<Run> {
    if words.len() != 5 {
        return None;
    }
    Some(Run {
        kind: kind_of(words[0].as_str())?,
        threads: words[1].as_str().parse().ok()?,
        apart: place_of(words[2].as_str())?,
        order: words[3].as_str().parse().ok()?,
        tries: words[4].as_str().parse().ok()?,
    })
}

/// Whether no word follows the program's name, and the run that the words ask for.
pub fn read(rt: &(impl Env + Alloc<A = Global>)) -> io::Result<(bool, Option<Run>)> {
    let mut words = Vec::new(rt.alloc());
    for word in env::args(rt)?.skip(1) {
        words.push(word)?;
    }
    Ok((words.is_empty(), run_of(words.as_slice())))
}
