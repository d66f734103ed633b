//! The operations of a thread, drawn from its number.
ghost use Rattle.entry_model.specs.Receipt.{IsNormal};

use authority_mask::Masks;
use entry_model::{Op, Test};
use storage_prot::Want;

/// The part of a table that a thread works on.
#[derive(Clone, Copy)]
pub struct Part {
    /// The index of its first entry.
    pub first: u32,
    /// The number of its entries less one, where that number is a power of two.
    pub mask: u32,
}

/// A xorshift generator.
#[derive(Drop)]
pub struct Draw {
    state: u64,
}

impl Draw {
    pub fn new(thread: u64) -> Draw {
        Draw {
            state: thread.wrapping_mul(0x9E37_79B9_7F4A_7C15) | 1,
        }
    }

    fn next(&mut self) -> u64 {
        let mut x = self.state;
        x ^= x << 13;
        x ^= x >> 7;
        x ^= x << 17;
        self.state = x;
        x
    }

    /// An entry of the part and an operation on it: eight kinds, each as often.
    pub fn operation(&mut self, part: &Part) -> (u32, Op)
        ensures { IsNormal result.1 }
    {
        let drawn = self.next();
        let entry = part.first.wrapping_add((drawn >> 32) as u32 & part.mask);
        let op = match drawn & 7 {
            0 => Op::Enter {
                dword0: 0x1001,
                dword1: 0x3012,
            },
            1 => Op::Remove { test: no_test() },
            2 => Op::Protect {
                test: no_test(),
                flags: 2,
            },
            3 => Op::Read,
            4 => Op::ClearRef,
            5 => Op::ClearMod,
            6 => access(Want::Load),
            _ => access(Want::Store),
        };
        (entry, op)
    }
}

fn no_test() -> Test {
    Test {
        avpn: None,
        andcond: None,
    }
}

/// An access by the page that is entered.
fn access(want: Want) -> Op
    ensures { IsNormal result }
{
    Op::Access {
        tag: 0x1001,
        base: 12,
        key: false,
        no_execute: false,
        want,
        masks: Masks::default(),
    }
}
