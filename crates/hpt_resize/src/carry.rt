//! The rehash: each bolted entry that has a page goes to that page's group in an empty new table,
//! until two entries would meet.
ghost use Rattle.std.specs.Prelude.{◌≡◌, ◌-◌, ◌^◌, ◌<◌, ◌≤◌, length, map, Option, Some, None, IsOk, IfErr, OnOk, MatchOption, MatchResult, replicate, vec_len, vec_capacity};
ghost use Rattle.hpte_fields.specs.TableSize.{IsTableOrder, entry_count};
ghost use Rattle.entry_model.specs.State.{State, empty_state};
ghost use Rattle.entry_model.specs.Run.{state_at};
ghost use Rattle.hpt_resize.specs.Holders.{all_holding};
ghost use Rattle.hpt_resize.specs.Rehash.{target_of, target_at, at_stamp_0, first_with, collision_of, rehashed_states, NoneBefore, IsCollision, IsPlacedBelow};

use crate::holder::StateHolder;
use entry_model::EntryState;
use hpt_hash::{groups, page_of};
use hpte_fields::{bolted, secondary};

/// Two entries that would go to one index of the new table.
#[derive(Clone, Copy, PartialEq, Eq, Debug)]
pub struct Collision {
    /// The lower index in the old table.
    pub first: u32,
    /// The higher index in the old table.
    pub second: u32,
    /// The index in the new table.
    pub target: u32,
}

/// Carries the bolted entries of a table of `2^order_from` bytes over to an empty one of
/// `2^order_to` bytes: each that is the entry of a page to that page's group there, at its old
/// slot. After a collision `into` holds those below the second of the two.
pub fn rehash(
    order_from: u8,
    order_to: u8,
    states: &[EntryState],
    into: &mut Vec<EntryState>,
) -> Result<(), Collision>
    requires from { IsTableOrder order_from }
    requires to { IsTableOrder order_to }
    requires whole { length states.now ≡ entry_count order_from }
    requires empty { into.old.items ≡ replicate (entry_count order_to) (empty_state 0) }
    ensures told { MatchResult
        result
        (λ _. collision_of order_from order_to states.now ≡ None)
        (λ collision. collision_of order_from order_to states.now ≡ Some collision) }
    ensures meet { IfErr result (IsCollision order_from order_to states.now) }
    ensures placed { MatchResult
        result
        (λ _. IsPlacedBelow order_from order_to states.now into.new.items (length states.now))
        (λ collision.
        IsPlacedBelow order_from order_to states.now into.new.items collision.second) }
    ensures carried { OnOk result
        (into.new.items ≡ rehashed_states order_from order_to states.now) }
    ensures never { order_from ≤ order_to → IsOk result }
    ensures length { vec_len into.new ≡ vec_len into.old }
    ensures capacity { vec_capacity into.new ≡ vec_capacity into.old }
{
    rehash_into(order_from, order_to, states, into.as_mut_slice())
}

/// [`rehash`] into entries of the caller, all of them empty before. Each keeps what else it has.
pub fn rehash_into<H: StateHolder>(
    order_from: u8,
    order_to: u8,
    states: &[H],
    into: &mut [H],
) -> Result<(), Collision>
    requires from { IsTableOrder order_from }
    requires to { IsTableOrder order_to }
    requires whole { length (map H.held states.now) ≡ entry_count order_from }
    requires empty { map H.held into.old ≡ replicate (entry_count order_to) (empty_state 0) }
    ensures told { MatchResult
        result
        (λ _. collision_of order_from order_to (map H.held states.now) ≡ None)
        (λ collision. collision_of order_from order_to (map H.held states.now) ≡ Some collision) }
    ensures meet { IfErr result (IsCollision order_from order_to (map H.held states.now)) }
    ensures placed { let held = map H.held states.now in
        MatchResult
        result
        (λ _. IsPlacedBelow order_from order_to held (map H.held into.new) (length held))
        (λ collision.
        IsPlacedBelow order_from order_to held (map H.held into.new) collision.second) }
    ensures carried { OnOk result
        (map H.held into.new ≡ rehashed_states order_from order_to (map H.held states.now)) }
    ensures never { order_from ≤ order_to → IsOk result }
    ensures holders { into.new ≡ all_holding H.holding into.old (map H.held into.new) }
{
    for index in 0..states.len() {
        let state = states[index].state();
        if let Some(target) = target_index(order_from, order_to, &state, index) {
            if into[target].state().valid {
                return Err(Collision {
                    first: first(order_from, order_to, states, index, target) as u32,
                    second: index as u32,
                    target: target as u32,
                });
            }
            into[target].hold(&fresh(state));
        }
    }
    Ok(())
}

// Where the entry of this state and index is carried, if it is. In line, since it is asked of every
// entry of a table, and most of them are carried nowhere.
#[inline(always)]
#[tactic(auto, unfolding(crate::specs::Rehash::target_of, crate::specs::Rehash::carried_page))]
fn target_index(order_from: u8, order_to: u8, state: &EntryState, index: usize) -> Option<usize>
    requires from { IsTableOrder order_from }
    requires to { IsTableOrder order_to }
    requires in_table { index < entry_count order_from }
    ensures value { result ≡ target_of order_from order_to state.now index }
    ensures in_new_table { MatchOption result (Unit {0}) (λ target. target < entry_count order_to) }
{
    if !state.valid || !bolted(state.dword0) {
        return None;
    }
    let page = page_of(order_from, index as u32, state.dword0, state.dword1)?;
    let (first, second) = groups(&page, order_to);
    let group = if secondary(state.dword0) {
        second
    } else {
        first
    };
    Some(group as usize * 8 + index % 8)
}

// The entry as it is carried over: its doublewords, R and C at stamp 0.
fn fresh(state: EntryState) -> EntryState
    ensures { result ≡ at_stamp_0 state }
{
    EntryState {
        valid: state.valid,
        dword0: state.dword0,
        dword1: state.dword1,
        referenced: state.referenced,
        changed: state.changed,
        stamp: 0,
    }
}

// The lowest index below `second` that is carried to this target.
fn first<H: StateHolder>(
    order_from: u8,
    order_to: u8,
    states: &[H],
    second: usize,
    target: usize,
) -> usize
    requires from { IsTableOrder order_from }
    requires to { IsTableOrder order_to }
    requires whole { length (map H.held states.now) ≡ entry_count order_from }
    requires in_table { second < length (map H.held states.now) }
    requires taken { NoneBefore order_from order_to (map H.held states.now) second target → ⊥ }
    ensures found { first_with order_from order_to (map H.held states.now) second target
        ≡ Some result }
    ensures below { result < second }
    ensures goes { target_at order_from order_to (map H.held states.now) result ≡ Some target }
    ensures lowest { NoneBefore order_from order_to (map H.held states.now) result target }
{
    for index in 0..second {
        if target_index(order_from, order_to, &states[index].state(), index) == Some(target) {
            return index;
        }
    }
    // Not reached: the caller knows that there is one.
    second
}
