//! The pool of memory for page tables: takes the lowest free block of an order and gives blocks
//! back, by a tree of free blocks.
ghost use Rattle.std.specs.Prelude.{◌≡◌, ◌<◌, ◌≤◌, ◌^◌, Contains, MatchOption, IfOk, IfSome, IfNone, IsOkUnless, MatchResult, OnOk, Some, None, Err};
ghost use Rattle.hpt_pool.specs.Pool.{block_at, no_blocks, pool_error, pool_refusal, lowest_place, FitsNowhere, IsLowest, with_block, without_block, IsSound};
ghost use Rattle.pool_range.specs.Ranges.{least_pool_order};

use crate::error::PoolError;
use crate::tree::{LEAF_ORDER, Node, free_nodes, give_back, take_first};
use pool_range::{PoolRange, RangeError};
use std::alloc::{AllocError, Global};
use std::marker::Model;

/// A pool of memory for page tables. Each block that is taken from it has a power of two of bytes
/// and begins at a multiple of its size.
#[derive(Drop)]
pub struct Pool {
    base: u64,
    order: u8,
    nodes: Vec<Node>,
}

impl Model for Pool {
    ghost use Rattle.hpt_pool.specs.Pool.{PoolState};

    ghost Value = { PoolState };

    ghost use Rattle.hpt_pool.specs.Tree.{tree_pool, IsTreePool};

    ghost view = { λ p. tree_pool p.base p.order p.nodes.items };

    ghost invariant = { λ p. IsTreePool p.base p.order p.nodes.items };
}

impl Pool {
    /// A pool of `2^order` bytes from `base`, with nothing taken, or why there is none.
    #[tactic(auto, unfolding(crate::specs::Pool::pool_refusal))]
    pub fn new(alloc: Global, base: u64, order: u8) -> Result<Pool, PoolError>
        ensures refused { MatchOption
            (pool_refusal base order)
            (IsOkUnless result PoolError.Memory)
            (λ e. result ≡ Err e) }
        ensures ok { IfOk result (λ pool. pool ≡ no_blocks base order) }
    {
        match PoolRange::new(base, u64::from(order)) {
            Err(error) => Err(refused(error)),
            Ok(range) => match Pool::within(alloc, range) {
                Ok(pool) => Ok(pool),
                Err(_) => Err(PoolError::Memory),
            },
        }
    }

    /// A pool of this range, with nothing taken. The only error is want of memory.
    pub fn within(alloc: Global, range: PoolRange) -> Result<Pool, AllocError>
        ensures { IfOk result (λ pool. pool ≡ no_blocks range.base range.order) }
    {
        let PoolRange { base, order } = range;
        let nodes = free_nodes(alloc, order - LEAF_ORDER)?;
        Ok(Pool { base, order, nodes })
    }

    /// The address at which the pool begins.
    pub fn base(&self) -> u64
        ensures value { result ≡ self.now.base }
        ensures sound { IsSound self.now }
    {
        self.base
    }

    /// The pool has `2^order` bytes.
    pub fn order(&self) -> u8
        ensures value { result ≡ self.now.order }
        ensures sound { IsSound self.now }
    {
        self.order
    }

    /// Takes the lowest block of `2^order` bytes that is free. `None` where there is none.
    pub fn take(&mut self, order: u8) -> Option<u64>
        requires at_least { least_pool_order ≤ order }
        requires at_most { order ≤ 46 }
        ensures place { result ≡ lowest_place self.old order }
        ensures lowest { MatchOption result (FitsNowhere self.old order) (IsLowest self.old order) }
        ensures taken { IfSome result
            (λ place. self.new ≡ with_block self.old (block_at place order)) }
        ensures none { IfNone result (self.new ≡ self.old) }
        ensures sound { IsSound self.new }
    {
        if self.nodes[0].largest() < order {
            return None;
        }
        let height = self.order - LEAF_ORDER;
        Some(take_first(&mut self.nodes, height, self.base, order))
    }

    /// Gives a block back.
    pub fn give(&mut self, place: u64, order: u8)
        requires { Contains self.old.taken (block_at place order) }
        ensures given { self.new ≡ without_block self.old place }
        ensures sound { IsSound self.new }
    {
        let height = self.order - LEAF_ORDER;
        give_back(&mut self.nodes, height, self.base, place, order);
    }
}

// The pool's word for what is wrong with a range.
fn refused(error: RangeError) -> PoolError
    ensures { result ≡ pool_error error }
{
    match error {
        RangeError::Order => PoolError::Order,
        RangeError::Unaligned => PoolError::Unaligned,
        RangeError::Past => PoolError::Past,
    }
}
