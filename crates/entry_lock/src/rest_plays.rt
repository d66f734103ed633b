//! What a load shows a pass with all shares. The type is for the proofs alone, as those of `plays`.
use crate::rule::View;
use atomic_table::Play;

/// The load of a word by a pass with all shares, which changes nothing.
pub struct RestLoads;

impl Play<u8, View> for RestLoads {
    ghost use Rattle.entry_lock.specs.Resting.{RestPlay};

    ghost then = { RestPlay };
}
