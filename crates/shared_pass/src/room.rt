//! Memory for one more pass, taken before a split, so that a split for which there is none changes
//! nothing.
ghost use Rattle.std.specs.Prelude.{◌≡◌};

use crate::parts::Parts;
use crate::working::Working;
use std::alloc::Global;
use std_alloc::room::Vacant;

/// The memory of one pass, with no pass in it.
pub struct Room {
    block: Vacant<Working, Global>,
}

impl Room {
    /// Takes the memory. `None` where there is none.
    pub fn take(alloc: Global) -> Option<Room> {
        match Vacant::take(alloc) {
            Ok(block) => Some(Room { block }),
            Err(_) => None,
        }
    }

    /// Puts a pass into it.
    pub fn fill(self, working: Working) -> Box<Working>
        ensures { result.value ≡ working }
    {
        let Room { block } = self;
        Parts::fill(block, working).into_box()
    }

    /// Gives the memory back.
    pub fn free(self) {
        let Room { block } = self;
        let _alloc = block.free();
    }
}
