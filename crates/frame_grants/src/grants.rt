//! The list of a guest's grants, in which none meets another or the pool of page tables, and the
//! translation of logical ranges by it.
ghost use Rattle.std.specs.Prelude.{◌≡◌, ◌+◌, ◌≤◌, ◌%◌, ◌^◌, true, Some, None, IfSome, find, count_by, length, MatchResult, OnOk, OnErr};
ghost use Rattle.std.specs.List.{list_any};
ghost use Rattle.pool_range.specs.Ranges.{IsPoolRange};
ghost use Rattle.frame_grants.specs.Grants.{no_grants, overlaps, meets_pool, add_refusal, starts_below, with_grant, holds, machine_range, IsPlaced, AreApart, IsSound, most_grants};

use crate::error::GrantError;
use crate::grant::{Grant, Kind};
use crate::range::ranges_meet;
use arrayvec::ArrayVec;
use std::marker::Model;

/// How many grants there can be.
pub const MOST_GRANTS: usize = 64;

/// The memory that is granted to the guest, and the pool of page tables that no grant may meet.
#[derive(Drop)]
pub struct Grants {
    pool_base: u64,
    pool_order: u8,
    items: ArrayVec<Grant, MOST_GRANTS>,
}

impl Model for Grants {
    ghost use Rattle.frame_grants.specs.Grants.{GrantedMemory, IsSound};

    ghost Value = { GrantedMemory };

    ghost view = { λ g. record {
      pool_base = g.pool_base;
      pool_order = g.pool_order;
      grants = g.items.items;
    } };

    ghost invariant = { λ g. IsSound (record {
      pool_base = g.pool_base;
      pool_order = g.pool_order;
      grants = g.items.items;
    }) };
}

impl Grants {
    /// No grant, with a pool of `2^pool_order` bytes from `pool_base`.
    pub fn new(pool_base: u64, pool_order: u8) -> Grants
        requires { IsPoolRange pool_base pool_order }
        ensures { result ≡ no_grants pool_base pool_order }
    {
        Grants {
            pool_base,
            pool_order,
            items: ArrayVec::new(),
        }
    }

    /// Grants a further range, or says why it can't be granted.
    pub fn add(&mut self, grant: Grant) -> Result<(), GrantError>
        ensures told { MatchResult
            result
            (λ _. add_refusal self.old grant ≡ None)
            (λ e. add_refusal self.old grant ≡ Some e) }
        ensures ok { OnOk result (self.new ≡ with_grant self.old grant) }
        ensures err { OnErr result (self.new ≡ self.old) }
    {
        self.check(&grant)?;
        let place = self.position_of(&grant);
        self.items.insert(place, grant);
        Ok(())
    }

    /// The machine address of a logical range of `length` bytes, and what lies there: `None` where
    /// the range has no byte, or no single grant holds all of it.
    #[tactic(auto, unfolding(crate::specs::Grants::machine_range))]
    pub fn machine_of(&self, logical: u64, length: u64) -> Option<(u64, Kind)>
        ensures { result ≡ machine_range self.now.grants logical length }
    {
        if length == 0 {
            return None;
        }
        let grant = self.grant_that_holds(logical, length)?;
        Some((grant.machine + (logical - grant.logical), grant.kind))
    }

    /// The grants in order of logical address, at most [`MOST_GRANTS`].
    pub fn list(&self) -> &[Grant]
        ensures items { result.now ≡ self.now.grants }
        ensures few { length result.now ≤ most_grants }
        ensures apart { AreApart self.now }
        ensures sound { IsSound self.now }
    {
        self.items.as_slice()
    }

    /// The same grants once more. It takes no memory.
    pub fn copy(&self) -> Grants
        ensures value { result ≡ self.now }
        ensures sound { IsSound result }
    {
        let mut items = ArrayVec::new();
        items.try_extend_from_slice(self.items.as_slice()).unwrap();
        Grants {
            pool_base: self.pool_base,
            pool_order: self.pool_order,
            items,
        }
    }

    #[tactic(auto, unfolding(crate::specs::Grants::add_refusal, crate::specs::Grants::refusals))]
    fn check(&self, grant: &Grant) -> Result<(), GrantError>
        ensures { MatchResult
            result
            (λ _. add_refusal self.now grant.now ≡ None)
            (λ e. add_refusal self.now grant.now ≡ Some e) }
    {
        if grant.length == 0 {
            return Err(GrantError::Empty);
        }
        if !grant.is_aligned() {
            return Err(GrantError::Unaligned);
        }
        if grant.ends_past() {
            return Err(GrantError::Past);
        }
        if self.items.is_full() {
            return Err(GrantError::TooMany);
        }
        if self.overlaps_any(grant) {
            return Err(GrantError::Overlap);
        }
        if self.meets_pool(grant) {
            return Err(GrantError::PoolOverlap);
        }
        Ok(())
    }

    fn overlaps_any(&self, grant: &Grant) -> bool
        ensures { result ≡ list_any (overlaps grant.now) self.now.grants }
    {
        self.list().iter().any(|other| grant.overlaps(other))
    }

    fn meets_pool(&self, grant: &Grant) -> bool
        ensures { result ≡ meets_pool self.now grant.now }
    {
        let size = 1 << self.pool_order;
        ranges_meet(grant.machine, grant.length, self.pool_base, size)
    }

    // How many grants start below this one: its place among them.
    fn position_of(&self, grant: &Grant) -> usize
        ensures { result ≡ count_by (starts_below grant.now) self.now.grants }
    {
        self.list()
            .iter()
            .filter(|other| other.logical < grant.logical)
            .count()
    }

    fn grant_that_holds(&self, logical: u64, length: u64) -> Option<Grant>
        ensures value { result ≡ find (holds logical length) self.now.grants }
        ensures placed { IfSome result IsPlaced }
        ensures holding { IfSome result (λ grant. holds logical length grant ≡ true) }
    {
        self.list()
            .iter()
            .find(|grant| grant.holds(logical, length))
            .copied()
    }
}
