//! A caller of the program's `run`, with an input and an output that never fail.
ghost use Rattle.std.specs.Prelude.{◌≡◌, ◌≢◌, ◌⊎◌, IsOk, IsErr};
ghost use Rattle.trace_io.specs.Memory.{taken_bytes};
ghost use Rattle.trace_read.specs.Grammar.{trace_of};
ghost use Rattle.papr_uses.specs.RunText.{PutsTextOfBytes};

use papr_top::{Status, papr_serial};
use std::alloc::Global;
use trace_io::{SteadySink, SteadySource};

/// How many bytes a read gives at most.
const PIECE: usize = 4096;

/// What the program answers to `run` over this input. Its text goes to the sink.
pub fn run_program(alloc: Global, input: Vec<u8>, sink: &mut SteadySink) -> Status
    // Neither the source nor the sink fails.
    ensures no_read_fault { result ≢ Status.ReadFault }
    ensures no_write_fault { result ≢ Status.WriteFault }
    // A trace is run to its end, unless memory ends.
    ensures complete { IsOk (trace_of input.items)
        → (result ≡ Status.Done) ⊎ (result ≡ Status.Memory) }
    // An input that is no trace is refused, unless memory ends.
    ensures refuses { IsErr (trace_of input.items)
        → (result ≡ Status.Refused) ⊎ (result ≡ Status.Memory) }
    ensures text { result ≡ Status.Done
        → PutsTextOfBytes input.items (taken_bytes sink.old) (taken_bytes sink.new) }
{
    let Ok(word) = String::from_str(alloc, "run") else {
        return Status::Memory;
    };
    let mut source = SteadySource::new(input, PIECE);
    papr_serial(alloc, &[word], &mut source, sink)
}
