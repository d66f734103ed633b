//! How a command that reads is run: read and parse the source, make the answer, write it. A
//! refusal, a fault or want of memory ends it early.
ghost use Rattle.std.specs.Prelude.{◌≡◌, ◌≢◌, ◌≤◌};
ghost use Rattle.std.specs.Fn.{FnOnceReturnsAt};
ghost use Rattle.trace_io.specs.Outside.{Rose};
ghost use Rattle.papr_edge.specs.Answer.{IsMade};
ghost use Rattle.papr_edge.specs.Ends.{EndsAnswered};

use crate::answer::Answer;
use crate::ending::{finish, refuse};
use crate::input::Input;
use crate::reading::read_input;
use crate::status::Status;
use std::alloc::{AllocError, Global};
use trace_io::{Sink, Source};

/// Reads the source to its end, and writes the text that is made of the input, or the refusal.
pub fn answer_input<I: Input, S: Source, K: Sink, F: FnOnce(&I) -> Result<Answer, AllocError>>(
    alloc: Global,
    source: &mut S,
    sink: &mut K,
    answer_of: F,
) -> Status
    requires { F.IsAlwaysCallable answer_of }
    ensures outcome { EndsAnswered
        I.reads
        (IsMade (FnOnceReturnsAt F.FnOnce answer_of))
        (record {
          left = S.left source.old;
          left_after = S.left source.new;
          taken = K.taken sink.old;
          taken_after = K.taken sink.new;
        })
        result }
    ensures read_fault { result ≡ Status.ReadFault
        → Rose (S.faults source.old) (S.faults source.new) }
    ensures write_fault { result ≡ Status.WriteFault
        → Rose (K.faults sink.old) (K.faults sink.new) }
    ensures no_read_fault { result ≢ Status.ReadFault
        → S.faults source.new ≡ S.faults source.old }
    ensures no_write_fault { result ≢ Status.WriteFault
        → K.faults sink.new ≡ K.faults sink.old }
    ensures source_faults { S.faults source.old ≤ S.faults source.new }
    ensures sink_faults { K.faults sink.old ≤ K.faults sink.new }
{
    match read_input::<I, S>(alloc, source) {
        Ok(input) => match answer_of(&input) {
            Ok(answer) => finish(sink, answer.as_bytes(), answer.status()),
            Err(_) => Status::Memory,
        },
        Err(error) => refuse(alloc, sink, error),
    }
}
