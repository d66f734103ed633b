//! The tree over a pool's blocks, as one list of nodes: each says that its block is taken, or how
//! large the largest free block in it is.
ghost use Rattle.std.specs.Prelude.{◌≡◌, ◌+◌, ◌-◌, ◌<◌, ◌≤◌, ◌^◌, Contains, IfOk, length};
ghost use Rattle.hpt_pool.specs.Pool.{block_at, taken_with, taken_without};
ghost use Rattle.hpt_pool.specs.Tree.{root_of, blocks_below, largest_of, JoinsHalves, IsTree};
ghost use Rattle.hpt_pool.specs.Way.{node_at, IsWay, AreMended};
ghost use Rattle.hpt_pool.specs.Free.{IsFirstFree};
ghost use Rattle.pool_range.specs.Ranges.{address_end, least_pool_order};

use crate::spot::Spot;
use pool_range::LEAST_ORDER;
use std::alloc::{AllocError, Global};

/// A leaf, the smallest part that is handed out, has `2^18` bytes.
pub const LEAF_ORDER: u8 = LEAST_ORDER;

/// What a node of the tree says of its block.
#[derive(Clone, Copy)]
pub enum Node {
    /// It is a taken block.
    Taken,
    /// It is none. The largest free block in it has `2^order` bytes, or none is free at 0.
    Open(u8),
}

impl Node {
    /// The order of the largest free block, or 0 where none is free.
    pub fn largest(self) -> u8
        ensures { result ≡ largest_of self }
    {
        match self {
            Node::Taken => 0,
            Node::Open(order) => order,
        }
    }
}

/// The nodes of a tree of `2^height` leaves that are all free.
pub fn free_nodes(alloc: Global, height: u8) -> Result<Vec<Node>, AllocError>
    requires { height ≤ 16 }
    ensures tree { IfOk result (λ nodes. IsTree height nodes.items) }
    ensures free { IfOk
        result
        (λ nodes. largest_of (root_of nodes.items) ≡ least_pool_order + height) }
{
    let mut nodes = vec![in alloc; Node::Taken; half_of(height + 1) - 1]?;
    free_all(&mut nodes, height);
    Ok(nodes)
}

// Makes each node say that its block is free.
fn free_all(nodes: &mut [Node], height: u8)
    requires most { height ≤ 16 }
    requires whole { length nodes.old + 1 ≡ 2 ^ (height + 1) }
    ensures tree { IsTree height nodes.new }
    ensures free { largest_of (root_of nodes.new) ≡ least_pool_order + height }
{
    nodes[0] = Node::Open(LEAF_ORDER + height);
    if height > 0 {
        let half = half_of(height);
        free_all(&mut nodes[1..half], height - 1);
        free_all(&mut nodes[half..], height - 1);
    }
}

/// Takes the first block of this order that is free, and gives its place.
pub fn take_first(nodes: &mut [Node], height: u8, place: u64, order: u8) -> u64
    requires tree { IsTree height nodes.old }
    requires most { height ≤ 16 }
    requires top { place + 2 ^ (least_pool_order + height) ≤ address_end }
    requires least { least_pool_order ≤ order }
    requires some { order ≤ largest_of (root_of nodes.old) }
    ensures first { IsFirstFree (blocks_below height place nodes.old) height place order result }
    ensures taken { blocks_below height place nodes.new
        ≡ taken_with (blocks_below height place nodes.old) (block_at result order) }
    ensures tree { IsTree height nodes.new }
{
    let mut spot = Spot::root(height);
    let mut first = place;
    while LEAF_ORDER + spot.height != order {
        if nodes[spot.index + 1].largest() >= order {
            spot = spot.left();
        } else {
            spot = spot.right();
            first += spot.bytes();
        }
    }
    nodes[spot.index] = Node::Taken;
    mend_above(nodes, spot, 0, height);
    first
}

/// Gives the block of this order at `given` back.
pub fn give_back(nodes: &mut [Node], height: u8, place: u64, given: u64, order: u8)
    requires tree { IsTree height nodes.old }
    requires most { height ≤ 16 }
    requires top { place + 2 ^ (least_pool_order + height) ≤ address_end }
    requires least { least_pool_order ≤ order }
    requires taken { Contains (blocks_below height place nodes.old) (block_at given order) }
    ensures given { blocks_below height place nodes.new
        ≡ taken_without (blocks_below height place nodes.old) given }
    ensures tree { IsTree height nodes.new }
{
    let depth = LEAF_ORDER + height - order;
    let turns = ((given - place) >> order) as usize;
    let spot = Spot::by_turns(height - depth, depth, turns);
    nodes[spot.index] = Node::Open(order);
    mend_above(nodes, spot, order, height);
}

// Makes each node above the spot, of which `said` is the largest order, say what its halves say.
fn mend_above(nodes: &mut [Node], from: Spot, said: u8, height: u8)
    requires most { height ≤ 16 }
    requires low { from.height ≤ height }
    requires way { IsWay (height - from.height) from.height from.index from.turns }
    requires whole { length nodes.old + 1 ≡ 2 ^ (height + 1) }
    requires said { said ≡ largest_of (node_at nodes.old from.index) }
    ensures { AreMended (height - from.height) from.height from.index from.turns
        nodes.old nodes.new }
{
    let mut spot = from;
    let mut largest = said;
    while spot.height < height {
        let above = spot.above();
        let other = nodes[spot.other(above)].largest();
        largest = joined(LEAF_ORDER + spot.height, largest, other);
        nodes[above.index] = Node::Open(largest);
        spot = above;
    }
}

// The largest order that is free in two halves of this order.
fn joined(order: u8, left: u8, right: u8) -> u8
    requires { order < 255 }
    ensures { JoinsHalves order left right result }
{
    if left == order && right == order {
        order + 1
    } else {
        left.max(right)
    }
}

// How many leaves a tree has: the nodes of its right half begin there.
fn half_of(height: u8) -> usize
    requires { height < 64 }
    ensures { result ≡ 2 ^ height }
{
    1 << height
}
