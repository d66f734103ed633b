//! The pools that are timed (empty, full or fragmented), and the pairs of a take and a give that
//! are made on them.
ghost use Rattle.std.specs.Prelude.{◌≢◌, ◌≤◌, All, AllPairs, Contains, IfOk, OnOk};
ghost use Rattle.hpt_pool.specs.Pool.{block_at};
ghost use Rattle.pool_range.specs.Ranges.{least_pool_order};

use hpt_pool::Pool;
use pool_range::LEAST_ORDER;
use rand_core::{Rng, SeedableRng};
use rand_xoshiro::Xoshiro256PlusPlus;
use std::alloc::{AllocError, Global};

/// The smallest block has `2^18` bytes.
const LEAF_ORDER: u8 = LEAST_ORDER;

/// What of a pool is taken before its calls.
#[derive(Clone, Copy)]
pub enum State {
    /// Nothing.
    Empty,
    /// All but the last leaf.
    Full,
    /// Every second leaf.
    Fragmented,
}

impl State {
    /// The state of this name.
    pub fn of_name(name: &str) -> Option<State> {
        match name {
            "empty" => Some(State::Empty),
            "full" => Some(State::Full),
            "fragmented" => Some(State::Fragmented),
            _ => None,
        }
    }

    /// Brings a new pool into the state.
    pub fn prepare(self, alloc: Global, pool: &mut Pool) -> Result<(), AllocError> {
        match self {
            State::Empty => {}
            State::Full => take_leaves(pool, leaves_of(pool) - 1),
            State::Fragmented => {
                let seconds = take_pairs(alloc, pool, leaves_of(pool) / 2)?;
                give_leaves(pool, &seconds);
            }
        }
        Ok(())
    }
}

// How many leaves a pool has.
fn leaves_of(pool: &Pool) -> u32
    ensures { 1 ≤ result }
{
    1 << (pool.order() - LEAF_ORDER)
}

fn take_leaves(pool: &mut Pool, count: u32) {
    for _ in 0..count {
        let _ = pool.take(LEAF_ORDER);
    }
}

// Takes so many pairs of leaves, and gives the place of the second of each.
fn take_pairs(alloc: Global, pool: &mut Pool, count: u32) -> Result<Vec<u64>, AllocError>
    ensures held { IfOk result
        (λ places. All (λ place. Contains pool.new.taken (block_at place 18)) places.items) }
    ensures apart { IfOk result (λ places. AllPairs (λ one other. one ≢ other) places.items) }
{
    let mut seconds = Vec::new(alloc);
    for _ in 0..count {
        take_pair(pool, &mut seconds)?;
    }
    Ok(seconds)
}

fn take_pair(pool: &mut Pool, seconds: &mut Vec<u64>) -> Result<(), AllocError>
    requires held { All (λ place. Contains pool.old.taken (block_at place 18)) seconds.old.items }
    requires apart { AllPairs (λ one other. one ≢ other) seconds.old.items }
    ensures held { OnOk result
        (All (λ place. Contains pool.new.taken (block_at place 18)) seconds.new.items) }
    ensures apart { OnOk result (AllPairs (λ one other. one ≢ other) seconds.new.items) }
{
    let _ = pool.take(LEAF_ORDER);
    if let Some(place) = pool.take(LEAF_ORDER) {
        seconds.push(place)?;
    }
    Ok(())
}

fn give_leaves(pool: &mut Pool, places: &[u64])
    requires held { All (λ place. Contains pool.old.taken (block_at place 18)) places.now }
    requires apart { AllPairs (λ one other. one ≢ other) places.now }
{
    for place in places {
        pool.give(*place, LEAF_ORDER);
    }
}

/// The places that were taken, and their sum.
#[derive(Clone, Copy)]
pub struct Seen {
    /// How many blocks were taken.
    pub places: u32,
    /// The sum of their addresses, modulo 2^64.
    pub sum: u64,
}

/// So many times takes a block and gives it back. Its order is drawn from a leaf's to `largest`.
pub fn take_and_give(pool: &mut Pool, largest: u8, calls: u32) -> Seen
    requires least { least_pool_order ≤ largest }
    requires most { largest ≤ 46 }
{
    let orders = u64::from(largest - LEAF_ORDER + 1);
    let mut words = Xoshiro256PlusPlus::seed_from_u64(1);
    let mut seen = Seen { places: 0, sum: 0 };
    for _ in 0..calls {
        let order = LEAF_ORDER + (words.next_u64() % orders) as u8;
        if let Some(place) = pool.take(order) {
            pool.give(place, order);
            seen.places = seen.places.wrapping_add(1);
            seen.sum = seen.sum.wrapping_add(place);
        }
    }
    seen
}
