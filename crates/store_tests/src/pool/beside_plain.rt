//! The pool compared with a plain one: 8000 drawn takings and returns of blocks, with the same
//! places from both.
ghost use Rattle.std.specs.Prelude.{◌≤◌, ◌<◌, All, Contains, OnOk, length};
ghost use Rattle.hpt_pool.specs.Pool.{block_at};

use super::plain::Plain;
use hpt_pool::Pool;
use rand_core::{Rng, SeedableRng};
use rand_xoshiro::Xoshiro256PlusPlus;
use std::process::Abort;
use std::test::Fail;

const BASE: u64 = 0x10_0000_0000;

// A block that is taken from both pools.
#[derive(Clone, Copy)]
struct Held {
    place: u64,
    order: u8,
    ghost least: { 18 ≤ order },
    ghost most: { order ≤ 46 },
}

// Takes a block of this order from both pools, and notes it if there is one.
fn take_of_both(
    rt: &impl Abort,
    pool: &mut Pool,
    plain: &mut Plain,
    held: &mut Vec<Held>,
    order: u8,
) -> Result<(), Fail>
    requires least { 18 ≤ order }
    requires most { order ≤ 46 }
    requires held { All (λ block. Contains pool.old.taken (block_at block.place block.order))
        held.old.items }
    ensures { OnOk result
        (All (λ block. Contains pool.new.taken (block_at block.place block.order)) held.new.items) }
{
    let taken = pool.take(order);
    assert_eq!(rt; taken, plain.take(order));
    if let Some(place) = taken {
        held.push(Held { place, order })?;
    }
    Ok(())
}

// Gives a block back to both pools.
fn give_to_both(pool: &mut Pool, plain: &mut Plain, held: &mut Vec<Held>, index: usize)
    requires index { index < length held.old.items }
    requires held { All (λ block. Contains pool.old.taken (block_at block.place block.order))
        held.old.items }
    ensures { All (λ block. Contains pool.new.taken (block_at block.place block.order))
        held.new.items }
{
    let Held { place, order } = held[index];
    pool.give(place, order);
    plain.give(place, order);
    held.retain(|block| block.place != place);
}

// Takes a block or gives one back, as a drawn word says.
fn take_or_give(
    rt: &impl Abort,
    pool: &mut Pool,
    plain: &mut Plain,
    held: &mut Vec<Held>,
    word: u64,
) -> Result<(), Fail>
    requires { All (λ block. Contains pool.old.taken (block_at block.place block.order))
        held.old.items }
    ensures { OnOk result
        (All (λ block. Contains pool.new.taken (block_at block.place block.order)) held.new.items) }
{
    let drawn = word >> 32;
    if word % 8 < 4 || held.is_empty() {
        return take_of_both(rt, pool, plain, held, 18 + (drawn % 10) as u8);
    }
    let index = drawn as usize % held.len();
    give_to_both(pool, plain, held, index);
    Ok(())
}

#[test]
fn answers_are_those_of_the_plain_pool(rt: HostRuntime) -> Result<(), Fail> {
    let mut words = Xoshiro256PlusPlus::seed_from_u64(26);
    let mut pool = Pool::new(rt.alloc(), BASE, 26)?;
    let mut plain = Plain::new(rt.alloc(), BASE, 256)?;
    let mut held = Vec::new(rt.alloc());
    for _ in 0..8000 {
        take_or_give(&rt, &mut pool, &mut plain, &mut held, words.next_u64())?;
    }
    Ok(())
}
