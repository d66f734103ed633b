//! The simplest pool, with which the real one is compared: a list of leaves, each taken or not.
ghost use Rattle.std.specs.Prelude.{◌≤◌};

use std::alloc::{AllocError, Global};

/// A leaf has `2^18` bytes.
const LEAF: u64 = 0x4_0000;

/// A pool that keeps for each leaf whether it is taken, and tries its places in order.
#[derive(Drop)]
pub struct Plain {
    base: u64,
    leaves: Vec<bool>,
}

impl Plain {
    /// A pool of so many leaves from `base`, with nothing taken.
    pub fn new(alloc: Global, base: u64, count: usize) -> Result<Plain, AllocError> {
        Ok(Plain {
            base,
            leaves: vec![in alloc; false; count]?,
        })
    }

    /// Takes the first block of `2^order` bytes of which no leaf is taken.
    pub fn take(&mut self, order: u8) -> Option<u64>
        requires least { 18 ≤ order }
        requires most { order ≤ 46 }
    {
        let count = 1 << (order - 18);
        let mut place = self.base;
        for leaves in self.leaves.chunks_exact_mut(count) {
            if leaves.iter().all(|taken| !*taken) {
                leaves.fill(true);
                return Some(place);
            }
            place = place.wrapping_add(LEAF << (order - 18));
        }
        None
    }

    /// Gives a block back.
    pub fn give(&mut self, place: u64, order: u8)
        requires least { 18 ≤ order }
        requires most { order ≤ 46 }
    {
        let first = (place.wrapping_sub(self.base) / LEAF) as usize;
        for leaf in self.leaves.iter_mut().skip(first).take(1 << (order - 18)) {
            *leaf = false;
        }
    }
}
