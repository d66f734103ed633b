//! What is decided at the end of a set's input: whether each partition that occurs has begun, and
//! the traces of these partitions.
ghost use Rattle.std.specs.Prelude.{◌≡◌, ◌≢◌, ℕ, ◌&&◌, true, is_some, map, unwrap_or, IfOk};
ghost use Rattle.std.specs.List.{list_all, list_any, AllByRecursion, AllPairs};
ghost use Rattle.trace_read.specs.Grammar.{Reading};
ghost use Rattle.trace_read.specs.Places.{is_running};
ghost use Rattle.trace_read.specs.Trace.{IsAccepted};
ghost use Rattle.lpar_set.specs.SetTrace.{NumberedTrace};
ghost use Rattle.lpar_set.specs.SetGrammar.{has_begun, trace_read_so};
ghost use Rattle.lpar_set.specs.SetRead.{partition_or, IsRunningAt};

use crate::set::SetPartition;
use std::alloc::{AllocError, Global};
use trace_read::TraceReader;

/// Whether the input may end here: a partition occurs, and each that does has begun.
pub fn may_end(readings: &[Option<TraceReader>]) -> bool
    ensures { result ≡ (list_any is_some readings.now && list_all has_begun readings.now) }
{
    any_occurs(readings) && all_have_begun(readings)
}

fn any_occurs(readings: &[Option<TraceReader>]) -> bool
    ensures { result ≡ list_any is_some readings.now }
{
    for reading in readings {
        if reading.is_some() {
            return true;
        }
    }
    false
}

fn all_have_begun(readings: &[Option<TraceReader>]) -> bool
    ensures { result ≡ list_all has_begun readings.now }
{
    for reading in readings {
        if !has_begun(reading) {
            return false;
        }
    }
    true
}

// Whether the number doesn't occur, or its `begin` has come.
fn has_begun(reading: &Option<TraceReader>) -> bool
    ensures { result ≡ has_begun reading.now }
{
    match reading {
        None => true,
        Some(reader) => reader.is_running(),
    }
}

// The partition of a number, as its lines were read.
fn partition_read(number: u8, reading: Option<TraceReader>) -> SetPartition
    requires { (other : Reading) → is_running (unwrap_or reading other).stage ≡ true }
    ensures read { (other : Reading)
        → result ≡ trace_read_so (unwrap_or reading.entry other) number }
    ensures accepted { IsAccepted result.trace }
{
    match reading {
        None => unreachable!(),
        Some(reader) => match reader.end() {
            Err(_) => unreachable!(),
            Ok(trace) => SetPartition { number, trace },
        },
    }
}

/// The partitions of these numbers, in their order.
pub fn partitions_read(
    alloc: Global,
    mut readings: Vec<Option<TraceReader>>,
    begun: &[u8],
) -> Result<Vec<SetPartition>, AllocError>
    requires apart { AllPairs (λ (n m : ℕ). n ≢ m) begun.now }
    requires running { (other : Reading)
        → AllByRecursion (IsRunningAt readings.items other) begun.now }
    ensures read { IfOk
        result
        (λ partitions. (other : Reading)
        → partitions.items ≡ map (partition_or readings.entry.items other) begun.now) }
    ensures accepted { IfOk
        result
        (λ partitions. AllByRecursion
        (λ (p : NumberedTrace). IsAccepted p.trace)
        partitions.items) }
{
    let mut partitions = Vec::with_capacity(alloc, begun.len())?;
    for number in begun {
        let reading = readings[usize::from(*number)].take();
        partitions.push(partition_read(*number, reading))?;
    }
    Ok(partitions)
}
