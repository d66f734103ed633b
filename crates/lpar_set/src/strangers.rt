//! Machine memory belongs to one partition of a set: whether a grant meets a grant of another one.
ghost use Rattle.std.specs.Prelude.{◌≡◌, slice_set, None};
ghost use Rattle.std.specs.List.{list_any};
ghost use Rattle.lpar_set.specs.SetGrammar.{meets_any};

use frame_grants::Grant;
use trace_read::TraceReader;

/// Whether the machine range of the grant meets one of another partition's.
pub fn meets_stranger(readings: &[Option<TraceReader>], number: u8, grant: &Grant) -> bool
    ensures { result ≡ list_any (meets_any grant.now) (slice_set readings.now number None) }
{
    for (i, reading) in readings.iter().enumerate() {
        if i != usize::from(number) && meets_any(grant, reading) {
            return true;
        }
    }
    false
}

/// Whether it meets one of this partition's, if that occurs.
fn meets_any(grant: &Grant, reading: &Option<TraceReader>) -> bool
    ensures { result ≡ meets_any grant.now reading.now }
{
    match reading {
        None => false,
        Some(reading) => {
            let grants = reading.grants();
            grants.list().iter().any(|other| grant.meets_machine(other))
        }
    }
}
