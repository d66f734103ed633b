//! The trace of a seed: one fixed configuration, a segment for each of four processors, and a run
//! line for each word of Xoshiro256++.
ghost use Rattle.std.specs.Prelude.{◌≡◌, ◌≤◌, ◌++◌, IfOk, OnOk};
ghost use Rattle.trace_read.specs.Trace.{IsAccepted};
ghost use Rattle.trace_gen.specs.Generated.{generated_trace, generated_config, segment_lines, lines_from, words_of_seed};

use crate::line::{line, segment};
use frame_grants::{Grant, Grants, Kind};
use rand_core::{Rng, SeedableRng};
use rand_xoshiro::Xoshiro256PlusPlus;
use std::alloc::{AllocError, Global};
use trace_line::TraceLines;
use trace_read::{Config, EntryLines, Trace, WindowLines};

/// How many processors run the lines.
const PROCESSORS: u32 = 4;

/// The trace of a seed: each processor gets a segment of VSID 1 at effective address 0, and then
/// comes one line for each of the first `lines` words of a generator that is made from the seed. It
/// is one that could have been read. The only error is want of memory.
pub fn generate(alloc: Global, seed: u64, lines: u32) -> Result<Trace, AllocError>
    requires { lines ≤ 100000 }
    ensures value { IfOk result (λ trace. trace ≡ generated_trace seed lines) }
    ensures accepted { IfOk result IsAccepted }
{
    let mut list = TraceLines::new(alloc);
    push_segments(&mut list)?;
    push_words(&mut list, seed, lines)?;
    let trace = Trace {
        config: config(alloc),
        lines: list,
    };
    trace.keeps_limits();
    Ok(trace)
}

// The configuration of each generated trace.
fn config(alloc: Global) -> Config
    ensures { result ≡ generated_config }
{
    let mut grants = Grants::new(0x10_0000_0000, 24);
    let ram = Grant {
        logical: 0,
        machine: 0x20_0000_0000,
        length: 0x4000_0000,
        kind: Kind::Ram,
    };
    grants.add(ram).unwrap();
    Config {
        order: 18,
        limit: 22,
        cpus: PROCESSORS,
        pool_base: 0x10_0000_0000,
        pool_order: 24,
        grants,
        entries: EntryLines::new(alloc),
        windows: WindowLines::new(),
    }
}

// Appends the line of each processor that makes its segment.
fn push_segments(list: &mut TraceLines) -> Result<(), AllocError>
    ensures { OnOk result (list.new ≡ list.old ++ segment_lines) }
{
    for cpu in 0..PROCESSORS {
        list.push(segment(cpu))?;
    }
    Ok(())
}

// Appends the line of each word, numbered after those of the segments.
fn push_words(list: &mut TraceLines, seed: u64, lines: u32) -> Result<(), AllocError>
    requires { lines ≤ 100000 }
    ensures { OnOk result (list.new ≡ list.old ++ lines_from 5 (words_of_seed seed lines)) }
{
    let mut words = Xoshiro256PlusPlus::seed_from_u64(seed);
    for drawn in 0..lines {
        list.push(line(PROCESSORS + 1 + drawn, words.next_u64()))?;
    }
    Ok(())
}
