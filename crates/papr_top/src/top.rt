//! The program as one function of its words, source and sink: which command runs, with and without
//! threads.
ghost use Rattle.std.specs.Prelude.{◌≡◌, ◌≢◌, ◌≤◌, None, false, IfSome};
ghost use Rattle.trace_io.specs.Outside.{Rose};
ghost use Rattle.trace_gen.specs.Generated.{generated_trace};
ghost use Rattle.papr_edge.specs.Commands.{without_par, IsInRange};
ghost use Rattle.papr_edge.specs.Commands as words_of;
ghost use Rattle.papr_top.specs.Top.{EndsDrill};
ghost use Rattle.papr_top.specs.Ends.{EndsCommand, reads_source};

use crate::answer::{par_answer, run_answer, summary};
use crate::imaging::image_answer;
use crate::judging::verdict_answer;
use crate::sets::set_answer;
use papr_edge::{Command, Status, answer_input, command_of, finish};
use std::alloc::Global;
use std::sync::Wait;
use std::thread::Threads;
use table_image::Layout;
use trace_io::{Sink, Source};
use trace_runner::Gate;

/// `drill`: writes the summary of a generated trace.
fn drill<K: Sink>(alloc: Global, seed: u64, lines: u32, sink: &mut K) -> Status
    requires { lines ≤ 100000 }
    ensures end { EndsDrill
        (generated_trace seed lines)
        (record {
          left = None;
          left_after = None;
          taken = K.taken sink.old;
          taken_after = K.taken sink.new;
        })
        result }
    ensures write_fault { result ≡ Status.WriteFault
        → Rose (K.faults sink.old) (K.faults sink.new) }
    ensures no_write_fault { result ≢ Status.WriteFault
        → K.faults sink.new ≡ K.faults sink.old }
    ensures sink_faults { K.faults sink.old ≤ K.faults sink.new }
{
    match summary(alloc, seed, lines) {
        Ok(text) => finish(sink, text.as_bytes(), Status::Done),
        Err(_) => Status::Memory,
    }
}

/// What a command does, of those that run on one thread; `par` is answered as a usage is.
fn run_command<S: Source, K: Sink>(
    alloc: Global,
    command: Option<Command>,
    source: &mut S,
    sink: &mut K,
) -> Status
    requires range { IfSome command IsInRange }
    ensures ends { EndsCommand
        (without_par command)
        (record {
          run = record {
            left = S.left source.old;
            left_after = S.left source.new;
            taken = K.taken sink.old;
            taken_after = K.taken sink.new;
          };
          source_faults = S.faults source.old;
          source_faults_after = S.faults source.new;
          sink_faults = K.faults sink.old;
          sink_faults_after = K.faults sink.new;
        })
        result }
    ensures untouched { reads_source (without_par command) ≡ false → source.new ≡ source.old }
{
    match command {
        Some(Command::Run) => answer_input(alloc, source, sink, |trace| run_answer(alloc, trace)),
        Some(Command::Check) => answer_input(
            alloc,
            source,
            sink,
            |input| verdict_answer(alloc, input),
        ),
        Some(Command::Set) => answer_input(alloc, source, sink, |input| set_answer(alloc, input)),
        Some(Command::Image(layout)) => answer_input(
            alloc,
            source,
            sink,
            |trace| image_answer(alloc, layout, trace),
        ),
        Some(Command::Drill { seed, lines }) => drill(alloc, seed, lines, sink),
        None | Some(Command::Par) => finish(sink, b"papr: usage\n", Status::Usage),
    }
}

/// All that the program does but `par`, with the words after its name. It always returns.
///
/// `run` reads the source to its end and writes the replies of the serial run: [`Status::Done`].
/// An input that is no trace is refused with its first refused line and the reason:
/// [`Status::Refused`]. `check` reads a trace, a line `replies` and a text, and writes whether the
/// text is that of a good run of the trace: `good`, or `bad section K` with the first section that
/// no good run explains, [`Status::CheckNo`]. `set` reads a set of partitions whose tables share
/// one pool, runs its lines one after the other, and writes the replies. `image old` and `image
/// new` run a trace as `run` does, and write the table at its end, in the layout of the Power ISA,
/// version 2.07, or in that of version 3.0; where the layout can't hold an entry, the first such is
/// named: [`Status::Refused`]. `drill SEED LINES` leaves the source as it is, and writes the
/// summary of the serial run of a generated trace. Other words leave it too, and are answered with
/// a usage line: [`Status::Usage`]. All text goes to the sink. [`Status::Memory`] is want of
/// memory.
pub fn papr_serial<S: Source, K: Sink>(
    alloc: Global,
    words: &[String],
    source: &mut S,
    sink: &mut K,
) -> Status
    ensures ends { EndsCommand
        (without_par (words_of.command_of words.now))
        (record {
          run = record {
            left = S.left source.old;
            left_after = S.left source.new;
            taken = K.taken sink.old;
            taken_after = K.taken sink.new;
          };
          source_faults = S.faults source.old;
          source_faults_after = S.faults source.new;
          sink_faults = K.faults sink.old;
          sink_faults_after = K.faults sink.new;
        })
        result }
    // A command that doesn't read the source leaves it as it is.
    ensures untouched { reads_source (without_par (words_of.command_of words.now)) ≡ false
        → source.new ≡ source.old }
{
    run_command(alloc, command_of(words), source, sink)
}

/// All that the program does, with the words after its name: [`papr_serial`], and `par`, which
/// reads the source to its end, runs each processor's lines in a thread of its own, and writes the
/// replies. They are a good run, which may be another one each time. The gate is called at each
/// line; the program's own lets all pass. Under `par` a call may wait for another processor.
pub fn papr<R: Threads + Wait + Sync, S: Source, K: Sink, G: Gate + Sync>(
    rt: &R,
    alloc: Global,
    words: &[String],
    source: &mut S,
    sink: &mut K,
    gate: &G,
) -> Status
    ensures ends { EndsCommand
        (words_of.command_of words.now)
        (record {
          run = record {
            left = S.left source.old;
            left_after = S.left source.new;
            taken = K.taken sink.old;
            taken_after = K.taken sink.new;
          };
          source_faults = S.faults source.old;
          source_faults_after = S.faults source.new;
          sink_faults = K.faults sink.old;
          sink_faults_after = K.faults sink.new;
        })
        result }
    // A command that doesn't read the source leaves it as it is.
    ensures untouched { reads_source (words_of.command_of words.now) ≡ false
        → source.new ≡ source.old }
{
    match command_of(words) {
        Some(Command::Par) => answer_input(
            alloc,
            source,
            sink,
            |trace| par_answer(rt, alloc, trace, gate),
        ),
        command => run_command(alloc, command, source, sink),
    }
}
