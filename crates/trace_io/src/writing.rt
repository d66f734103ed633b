//! A text put into a sink whole, however little each write takes. It ends since a write takes at
//! least a byte, or fails.
ghost use Rattle.std.specs.Prelude.{◌≡◌, ◌≤◌, OnOk, OnErr};
ghost use Rattle.trace_io.specs.Outside.{Put, PutPrefix, Rose};

use crate::outside::{Failed, Sink};

/// Writes a whole text, piece after piece, up to the sink's first failure.
pub fn write_all<K: Sink>(sink: &mut K, text: &[u8]) -> Result<(), Failed>
    ensures whole { OnOk result (Put (K.taken sink.old) text.now (K.taken sink.new)) }
    ensures front { OnErr result (PutPrefix text.now (K.taken sink.old) (K.taken sink.new)) }
    ensures stands { OnOk result (K.faults sink.new ≡ K.faults sink.old) }
    ensures faults { K.faults sink.old ≤ K.faults sink.new }
    ensures cause { OnErr result (Rose (K.faults sink.old) (K.faults sink.new)) }
{
    let mut at = 0;
    while at < text.len() {
        at += sink.write(&text[at..])?;
    }
    Ok(())
}
