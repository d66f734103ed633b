//! The pool of tables: which places its blocks have, how blocks that are given back join, and which
//! pools are refused.
mod beside_plain;
mod plain;

use hpt_pool::{Pool, PoolError};
use std::test::Fail;

/// Where the pool begins.
const BASE: u64 = 0x10_0000_0000;

/// Takes a block of an order that the largest tables and the smallest have.
fn taken(pool: &mut Pool, order: u8) -> Option<u64> {
    if 18 <= order && order <= 46 {
        pool.take(order)
    } else {
        None
    }
}

#[test]
fn blocks_are_taken_at_the_lowest_place(rt: HostRuntime) -> Result<(), Fail> {
    let mut pool = Pool::new(rt.alloc(), BASE, 20)?;
    assert_eq!(rt; (pool.base(), pool.order()), (BASE, 20));
    for (order, place) in [
        (21, None),
        (18, Some(BASE)),
        (19, Some(BASE + 0x8_0000)),
        (18, Some(BASE + 0x4_0000)),
        (18, None),
    ] {
        assert_eq!(rt; taken(&mut pool, order), place);
    }
    Ok(())
}

#[test]
fn leaves_that_are_given_back_join(rt: HostRuntime) -> Result<(), Fail> {
    let mut pool = Pool::new(rt.alloc(), BASE, 20)?;
    let Some(first) = pool.take(18) else {
        return Err("no first leaf".into());
    };
    let Some(second) = pool.take(18) else {
        return Err("no second leaf".into());
    };
    if first == second {
        return Err("one leaf twice".into());
    }
    pool.give(first, 18);
    pool.give(second, 18);
    for (order, place) in [(21, None), (20, Some(BASE)), (18, None)] {
        assert_eq!(rt; taken(&mut pool, order), place);
    }
    Ok(())
}

/// Bases and orders of no pool, and why.
const REFUSED: [(u64, u8, PoolError); 4] = [
    (1, 17, PoolError::Order),
    (1, 35, PoolError::Order),
    (u64::MAX, 18, PoolError::Unaligned),
    (0x1000_0000_0000_0000, 18, PoolError::Past),
];

#[test]
fn each_refusal_comes_in_its_order(rt: HostRuntime) {
    for (base, order, why) in REFUSED {
        assert_eq!(rt; Pool::new(rt.alloc(), base, order).err(), Some(why));
    }
    assert!(rt; Pool::new(rt.alloc(), 0xFFF_FFFF_FFFC_0000, 18).is_ok());
}

#[test]
fn a_pool_of_the_largest_order(rt: HostRuntime) -> Result<(), Fail> {
    let mut pool = Pool::new(rt.alloc(), 0x40_0000_0000, 34)?;
    let whole = pool.take(34).ok_or("no whole pool")?;
    assert_eq!(rt; (whole, taken(&mut pool, 18)), (0x40_0000_0000, None));
    Ok(())
}

#[test]
fn a_pool_of_the_largest_order_is_given_back(rt: HostRuntime) -> Result<(), Fail> {
    let mut pool = Pool::new(rt.alloc(), 0x40_0000_0000, 34)?;
    let Some(whole) = pool.take(34) else {
        return Err("no whole pool".into());
    };
    pool.give(whole, 34);
    for (order, place) in [
        (18, Some(whole)),
        (33, Some(whole + 0x2_0000_0000)),
        (33, None),
        (18, Some(whole + 0x4_0000)),
        (19, Some(whole + 0x8_0000)),
    ] {
        assert_eq!(rt; taken(&mut pool, order), place);
    }
    Ok(())
}
