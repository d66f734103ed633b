//! Callers of `hpt_pool`: blocks of table memory that are taken don't overlap, and one that is
//! given back leaves no trace.
ghost use Rattle.std.specs.Prelude.{◌≡◌, ◌⊎◌, ℕ, ◌≤◌, false, Contains, Some, None, IfSome, IfNone};
ghost use Rattle.hpt_pool.specs.Pool.{block_at, lowest_place, overlap, with_block};
ghost use Rattle.pool_range.specs.Ranges.{least_pool_order};

use hpt_pool::Pool;

/// Takes a block and gives it back: the pool is as it was.
pub fn take_and_give(pool: &mut Pool, order: u8) -> Option<u64>
    requires at_least { least_pool_order ≤ order }
    requires at_most { order ≤ 46 }
    ensures place { result ≡ lowest_place pool.old order }
    ensures same { pool.new ≡ pool.old }
{
    // Each call of a pool says that its blocks are sound, and giving back needs that of the pool
    // before.
    let _order = pool.order();
    let place = pool.take(order)?;
    pool.give(place, order);
    Some(place)
}

/// Takes two blocks, which don't overlap. Where there is no room for both, it takes neither.
pub fn take_pair(pool: &mut Pool, first: u8, second: u8) -> Option<(u64, u64)>
    requires first_low { least_pool_order ≤ first }
    requires first_high { first ≤ 46 }
    requires second_low { least_pool_order ≤ second }
    requires second_high { second ≤ 46 }
    ensures apart { IfSome
        result
        (λ places. overlap (block_at places.1 second) (block_at places.0 first) ≡ false) }
    ensures first { IfSome result (λ places. Contains pool.new.taken (block_at places.0 first)) }
    ensures second { IfSome result (λ places. Contains pool.new.taken (block_at places.1 second)) }
    ensures neither { IfNone result (pool.new ≡ pool.old) }
    // There is no room for the first, or none for the second next to the first.
    ensures full { IfNone
        result
        ((lowest_place pool.old first ≡ None)
        ⊎ ((place : ℕ)
        × (lowest_place pool.old first ≡ Some place)
        × (lowest_place (with_block pool.old (block_at place first)) second ≡ None))) }
{
    // Each call of a pool says that its blocks are sound, and giving back needs that of the pool
    // before.
    let _order = pool.order();
    let place = pool.take(first)?;
    match pool.take(second) {
        Some(other) => Some((place, other)),
        None => {
            pool.give(place, first);
            None
        }
    }
}
