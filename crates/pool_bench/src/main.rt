//! Takes and gives blocks of a pool, to be timed by `bench/pool`.
//!
//! With no words it makes a few calls at pools of order 22. With the words ORDER, STATE, LARGEST
//! and CALLS it makes so many pairs of a take and a give at one pool, of blocks up to the order
//! LARGEST. It writes how many places it was given, and their sum.
#![tactic(auto)]

mod state;

use anyhow::{Context, Result, ensure};
use hpt_pool::Pool;
use state::{State, take_and_give};
use std::alloc::Global;
use std::env;
use std::rt::Env;

/// The address at which each pool begins.
const BASE: u64 = 0x40_0000_0000;

fn run(
    rt: &(impl Alloc<A = Global> + Print),
    order: u8,
    state: State,
    largest: u8,
    calls: u32,
) -> Result<()> {
    ensure!((18..=34).contains(&largest), "no block of order {largest}");
    let mut pool = Pool::new(rt.alloc(), BASE, order)?;
    state.prepare(rt.alloc(), &mut pool)?;
    let seen = take_and_give(&mut pool, largest, calls);
    println!(rt; "{} places, sum {:#x}", seen.places, seen.sum)?;
    Ok(())
}

fn run_words(rt: &(impl Alloc<A = Global> + Print + Env)) -> Result<bool> {
    let mut words = env::args(rt)?.skip(1);
    let Some(order) = words.next() else {
        return Ok(false);
    };
    let state = words.next().context("no state")?;
    let state = State::of_name(state.as_str()).context("no such state")?;
    let largest = words.next().context("no largest order")?;
    let calls = words.next().context("no calls")?;
    run(rt, order.parse()?, state, largest.parse()?, calls.parse()?)?;
    Ok(true)
}

fn main(rt: HostRuntime) -> Result<()> {
    if !run_words(&rt)? {
        run(&rt, 22, State::Empty, 22, 100)?;
        run(&rt, 22, State::Full, 18, 100)?;
        run(&rt, 22, State::Fragmented, 18, 100)?;
    }
    Ok(())
}
