//! What is promised of the runs whose replies the program writes, each promise from the program's
//! clause and the laws.
ghost use Rattle.std.specs.Prelude.{◌≡◌};
ghost use Rattle.trace_io.specs.Memory.{taken_bytes};
ghost use Rattle.papr_uses.specs.Promises.{Promise, Follows, PutsReplies, IsOfThreads, IsOfOneThread, StoresShow, ResizesKeep, EachAccessLands, EachDeviceLands, NoneIsHardware, CachesAreRight, MasksAreRight, ZeroMasksAreSilent, OneProcessorHasOneRun, RefusalsLeave, TextTellsRun, NoPutIsBusy};

use history_check::{at_most_one, good_runs_are_good};
use papr_top::{OpenGate, Status, papr, papr_serial};
use run_model::{
    cached_lines_are_current_or_gone, masks_refuse_exactly_where, one_good_run,
    refused_lines_change_nothing, refused_resizes_change_nothing,
    refused_window_lines_change_nothing, zero_masks_refuse_nothing,
};
use std::alloc::Global;
use std::sync::Wait;
use std::thread::Threads;
use trace_io::{SteadySink, SteadySource};

/// How many bytes a read gives at most.
const PIECE: usize = 4096;

/// What the program answers to `par` over this input.
fn run_threads<R: Threads + Wait + Sync>(
    rt: &R,
    alloc: Global,
    input: Vec<u8>,
    sink: &mut SteadySink,
) -> Status
    ensures { result ≡ Status.Done
        → PutsReplies IsOfThreads input.items (taken_bytes sink.old) (taken_bytes sink.new) }
{
    let Ok(word) = String::from_str(alloc, "par") else {
        return Status::Memory;
    };
    let mut source = SteadySource::new(input, PIECE);
    papr(rt, alloc, &[word], &mut source, sink, &OpenGate)
}

/// What the program answers to `run` over this input.
fn run_serially(alloc: Global, input: Vec<u8>, sink: &mut SteadySink) -> Status
    ensures { result ≡ Status.Done
        → PutsReplies IsOfOneThread input.items (taken_bytes sink.old) (taken_bytes sink.new) }
{
    let Ok(word) = String::from_str(alloc, "run") else {
        return Status::Memory;
    };
    let mut source = SteadySource::new(input, PIECE);
    papr_serial(alloc, &[word], &mut source, sink)
}

/// A promise of the replies that the program writes under `par`.
pub trait KeptPromise {
    /// What is promised.
    ghost promise: { Promise };

    /// It follows from the program's clause.
    fn follows()
        ensures { Follows promise };
}

/// What the program answers to `par` over this input: where it is done, it wrote the text of
/// replies that keep the promise.
pub fn keep_promise<P: KeptPromise, R: Threads + Wait + Sync>(
    rt: &R,
    alloc: Global,
    input: Vec<u8>,
    sink: &mut SteadySink,
) -> Status
    ensures { result ≡ Status.Done
        → PutsReplies P.promise input.items (taken_bytes sink.old) (taken_bytes sink.new) }
{
    P::follows();
    run_threads(rt, alloc, input, sink)
}

/// Each store that succeeds shows in its entry's change bit until a reply clears the bit, and that
/// shows it.
pub struct Stores;

impl KeptPromise for Stores {
    ghost promise = { StoresShow };

    fn follows() {}
}

/// A committed resize keeps the translation of each bolted page.
pub struct Resizes;

impl KeptPromise for Resizes {
    ghost promise = { ResizesKeep };

    fn follows() {}
}

/// Each access that is allowed lands by an entry of its page, in granted memory and in no table.
pub struct Accesses;

impl KeptPromise for Accesses {
    ghost promise = { EachAccessLands };

    fn follows() {}
}

/// Each access of a device that is allowed lands by its TCE, in granted main storage and in no
/// table.
pub struct Devices;

impl KeptPromise for Devices {
    ghost promise = { EachDeviceLands };

    fn follows() {}
}

/// No reply is H_HARDWARE.
pub struct NoHardware;

impl KeptPromise for NoHardware {
    ghost promise = { NoneIsHardware };

    fn follows() {}
}

/// A hit uses a line that is current, and a walk passes over a cached translation only where that
/// is gone.
pub struct Caches;

impl KeptPromise for Caches {
    ghost promise = { CachesAreRight };

    fn follows() {
        cached_lines_are_current_or_gone();
    }
}

/// A mask refuses an access exactly if the entry allows it and the mask doesn't.
pub struct Masks;

impl KeptPromise for Masks {
    ghost promise = { MasksAreRight };

    fn follows() {
        masks_refuse_exactly_where();
    }
}

/// Where no line sets a mask but to 0, none refuses an access.
pub struct ZeroMasks;

impl KeptPromise for ZeroMasks {
    ghost promise = { ZeroMasksAreSilent };

    fn follows() {
        zero_masks_refuse_nothing();
    }
}

/// Where one processor has all lines, the replies are those of the serial run, and no others are a
/// good run.
pub struct OneProcessor;

impl KeptPromise for OneProcessor {
    ghost promise = { OneProcessorHasOneRun };

    fn follows() {
        one_good_run();
    }
}

/// A refused line changes nothing, but what is named.
pub struct Refusals;

impl KeptPromise for Refusals {
    ghost promise = { RefusalsLeave };

    fn follows() {
        refused_lines_change_nothing();
        refused_window_lines_change_nothing();
        refused_resizes_change_nothing();
    }
}

/// The text is judged good, and is that of no other good run.
pub struct Texts;

impl KeptPromise for Texts {
    ghost promise = { TextTellsRun };

    fn follows() {
        good_runs_are_good();
        at_most_one();
    }
}

/// Under `run` no H_PUT_TCE answers H_BUSY.
pub fn no_put_is_busy(alloc: Global, input: Vec<u8>, sink: &mut SteadySink) -> Status
    ensures { result ≡ Status.Done
        → PutsReplies NoPutIsBusy input.items (taken_bytes sink.old) (taken_bytes sink.new) }
{
    run_serially(alloc, input, sink)
}
