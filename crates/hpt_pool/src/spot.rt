//! Positions in a pool's tree: a node's index in the list of nodes, and the steps to its halves and
//! to the node above.
ghost use Rattle.std.specs.Prelude.{◌≡◌, ◌+◌, ◌*◌, ◌/◌, ◌%◌, ◌<◌, ◌≤◌, ◌^◌};
ghost use Rattle.hpt_pool.specs.Way.{IsHalf, IsWay};
ghost use Rattle.pool_range.specs.Ranges.{least_pool_order};

use crate::tree::LEAF_ORDER;

/// A node of a tree, by the way that leads to it from the root.
#[derive(Clone, Copy)]
pub struct Spot {
    /// It has `2^height` leaves.
    pub height: u8,
    /// How many leaves it has. Its right half begins as many nodes after it in the list of nodes.
    pub leaves: usize,
    /// Its place in the list.
    pub index: usize,
    /// A bit for each turn of the way, set where it turns right. The lowest is the last turn's.
    pub turns: usize,
    ghost leaves_are: { leaves ≡ 2 ^ height },
}

impl Spot {
    /// The root of a tree of this height.
    pub fn root(height: u8) -> Spot
        requires { height < 64 }
        ensures height { result.height ≡ height }
        ensures index { result.index ≡ 0 }
        ensures turns { result.turns ≡ 0 }
    {
        Spot {
            height,
            leaves: 1 << height,
            index: 0,
            turns: 0,
        }
    }

    /// The node of this height to which these turns lead, of which there are `depth`.
    pub fn by_turns(height: u8, depth: u8, turns: usize) -> Spot
        requires most { depth + height ≤ 16 }
        requires turns { turns < 2 ^ depth }
        ensures height { result.height ≡ height }
        ensures way { IsWay depth height result.index turns }
        ensures turns { result.turns ≡ turns }
    {
        // Before it stand the nodes above it and, for each turn to the right, the left half that it
        // leaves aside, which has one node less than twice as many as leaves.
        let aside = turns << (height + 1);
        Spot {
            height,
            leaves: 1 << height,
            index: aside + usize::from(depth) - turns.count_ones() as usize,
            turns,
        }
    }

    /// Its left half.
    pub fn left(self) -> Spot
        requires least { 0 < self.height }
        requires index { self.index < 2 ^ 32 }
        requires turns { self.turns < 2 ^ 32 }
        ensures height { result.height + 1 ≡ self.height }
        ensures index { result.index ≡ self.index + 1 }
        ensures turns { result.turns ≡ self.turns * 2 }
    {
        Spot {
            height: self.height - 1,
            leaves: self.leaves / 2,
            index: self.index + 1,
            turns: self.turns * 2,
        }
    }

    /// Its right half.
    pub fn right(self) -> Spot
        requires least { 0 < self.height }
        requires most { self.height ≤ 16 }
        requires index { self.index < 2 ^ 32 }
        requires turns { self.turns < 2 ^ 32 }
        ensures height { result.height + 1 ≡ self.height }
        ensures index { result.index ≡ self.index + 2 ^ self.height }
        ensures turns { result.turns ≡ self.turns * 2 + 1 }
    {
        Spot {
            height: self.height - 1,
            leaves: self.leaves / 2,
            index: self.index + self.leaves,
            turns: self.turns * 2 + 1,
        }
    }

    /// The node of which it is a half.
    pub fn above(self) -> Spot
        requires most { self.height ≤ 16 }
        requires left { self.turns % 2 ≡ 0 → 1 ≤ self.index }
        requires right { self.turns % 2 ≡ 1 → 2 ^ (self.height + 1) ≤ self.index }
        ensures height { result.height ≡ self.height + 1 }
        ensures half { IsHalf self.height self.index self.turns result.index }
        ensures turns { result.turns ≡ self.turns / 2 }
    {
        let leaves = self.leaves * 2;
        let gap = if self.turns % 2 == 0 { 1 } else { leaves };
        Spot {
            height: self.height + 1,
            leaves,
            index: self.index - gap,
            turns: self.turns / 2,
        }
    }

    /// The index of the other half of the node above.
    pub fn other(self, above: Spot) -> usize
        requires most { above.height ≤ 17 }
        requires index { above.index < 2 ^ 32 }
        ensures left { self.turns % 2 ≡ 0 → result ≡ above.index + 2 ^ above.height }
        ensures right { self.turns % 2 ≡ 1 → result ≡ above.index + 1 }
    {
        if self.turns % 2 == 0 {
            above.index + above.leaves
        } else {
            above.index + 1
        }
    }

    /// The bytes of its block.
    pub fn bytes(self) -> u64
        requires { self.height ≤ 16 }
        ensures { result ≡ 2 ^ (least_pool_order + self.height) }
    {
        1 << (LEAF_ORDER + self.height)
    }
}
