//! Reading a source to its end within a limit of bytes, and the three ways in which that can fail.
ghost use Rattle.std.specs.Prelude.{◌≡◌, ◌≤◌, length, IfOk, OnOk, IsErrOf};
ghost use Rattle.trace_io.specs.Outside.{Took, TookWithin, TookPast, AtEnd, Rose};

use crate::outside::{Failed, Source};
use std::alloc::{AllocError, Global};

/// Why the whole of an input could not be read.
#[derive(Clone, Copy, PartialEq, Eq, Debug)]
pub enum ReadAllError {
    /// The source failed.
    Fault,
    /// The input is longer than the limit.
    Long,
    /// There was no memory for the bytes.
    Memory,
}

impl From<AllocError> for ReadAllError {
    ghost use Rattle.std.specs.Prelude.{◌≡◌};
    ghost use Rattle.trace_io.specs.declared.reading.ReadAllError.TheVariants.{Memory};

    ghost from_gives = { λ _ error. error ≡ Memory };

    fn from(_: AllocError) -> Self {
        ReadAllError::Memory
    }
}

impl From<Failed> for ReadAllError {
    ghost use Rattle.std.specs.Prelude.{◌≡◌};
    ghost use Rattle.trace_io.specs.declared.reading.ReadAllError.TheVariants.{Fault};

    ghost from_gives = { λ _ error. error ≡ Fault };

    fn from(_: Failed) -> Self {
        ReadAllError::Fault
    }
}

/// How many bytes a read asks for at most.
const BUFFER: usize = 4096;

/// Reads all bytes that are left, where they are at most `limit`. To find that there are more it
/// takes one byte past the limit, and never another.
pub fn read_all<S: Source>(
    alloc: Global,
    source: &mut S,
    limit: usize,
) -> Result<Vec<u8>, ReadAllError>
    ensures bytes { IfOk result (λ v. Took (S.left source.old) v.items (S.left source.new)) }
    ensures end { OnOk result (AtEnd (S.left source.new)) }
    ensures within { IfOk result (λ v. length v.items ≤ limit) }

    ensures long { IsErrOf result ReadAllError.Long
        → TookPast limit (S.left source.old) (S.left source.new) }
    ensures fault { IsErrOf result ReadAllError.Fault
        → TookWithin limit (S.left source.old) (S.left source.new) }
    ensures memory { IsErrOf result ReadAllError.Memory
        → TookWithin limit (S.left source.old) (S.left source.new) }

    ensures stands { ¬ IsErrOf result ReadAllError.Fault
        → S.faults source.new ≡ S.faults source.old }
    ensures faults { S.faults source.old ≤ S.faults source.new }
    ensures cause { IsErrOf result ReadAllError.Fault
        → Rose (S.faults source.old) (S.faults source.new) }
{
    let mut bytes = Vec::new(alloc);
    let mut buffer = [0u8; BUFFER];
    loop {
        let spare = limit - bytes.len();
        let asked = spare.min(BUFFER - 1) + 1;
        let n = source.read(&mut buffer[..asked])?;
        if n == 0 {
            return Ok(bytes);
        }
        if n > spare {
            return Err(ReadAllError::Long);
        }
        bytes.extend_from_slice(&buffer[..n])?;
    }
}
