//! The program run on bytes in memory: its words and its input are the caller's, and its output is
//! kept until its end and then put into the caller's room.
ghost use Rattle.std.specs.Prelude.{◌≡◌, IfOk, OnErr};
ghost use Rattle.papr_bytes.specs.Calls.{Called, IsCall, words_named};

use crate::call_end::{CallEnd, hand_over};
use crate::kept_sink::KeptSink;
use crate::words::words_in;
use papr_top::papr_serial;
use std::alloc::{AllocError, Global};
use trace_io::SteadySource;

/// How many bytes a read gives at most.
const PIECE: usize = 4096;

/// The call, where there is memory to begin.
fn called(
    alloc: Global,
    first: &[u8],
    second: &[u8],
    third: &[u8],
    input: &[u8],
    room: &mut [u8],
) -> Result<CallEnd, AllocError>
    ensures ok { IfOk result
        (λ e. Called (words_named first.now second.now third.now) input.now room.old e room.new) }
    ensures err { OnErr result (room.new ≡ room.old) }
{
    let words = words_in(alloc, first, second, third)?;
    let mut source = SteadySource::new(input.to_vec(alloc)?, PIECE);
    let mut sink = KeptSink::new(alloc);
    let status = papr_serial(alloc, &words, &mut source, &mut sink);
    Ok(hand_over(status, &sink.text, room))
}

/// Calls the program with at most three words; empty ones are left out. The input stands for
/// standard input, and what the program writes is put into `room`. Where that is too small the
/// status is 7, nothing is put there, and the length is the room that is wanted.
#[unsafe(no_mangle)]
pub extern "C" fn papr_bytes_call(
    alloc: Global,
    first: &[u8],
    second: &[u8],
    third: &[u8],
    input: &[u8],
    room: &mut [u8],
) -> CallEnd
    ensures { IsCall
        (words_named first.now second.now third.now)
        input.now
        room.old
        result
        room.new }
{
    match called(alloc, first, second, third, input, room) {
        Ok(end) => end,
        Err(_) => CallEnd::no_memory(),
    }
}
