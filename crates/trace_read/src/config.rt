//! The configuration of a trace and the limits that it keeps: table orders, processors, pool,
//! grants, opening entries and DMA windows.
use crate::entries::EntryLines;
use crate::windows::WindowLines;
use frame_grants::Grants;
use std::marker::Model;

/// The order of the largest table that a trace can have.
pub const GREATEST_TRACE_ORDER: u8 = 22;

/// How many processors a trace can have.
pub const MOST_PROCESSORS: u32 = 64;

/// The configuration of a partition, as the configuration lines of a trace give it.
#[derive(Drop)]
pub struct Config {
    /// The binary logarithm of the size of the opening table in bytes, from
    /// [`hpte_fields::LEAST_ORDER`] to `limit`.
    pub order: u8,
    /// The highest order that the guest may ask for, at most [`GREATEST_TRACE_ORDER`].
    pub limit: u8,
    /// How many processors there are, from 1 to [`MOST_PROCESSORS`].
    pub cpus: u32,
    /// The machine address at which the pool of table memory begins.
    pub pool_base: u64,
    /// The pool has `2^pool_order` bytes; it has room for the opening table.
    pub pool_order: u8,
    /// The memory that is granted to the guest; no grant meets that pool.
    pub grants: Grants,
    /// The valid entries of the opening table.
    pub entries: EntryLines,
    /// The windows through which devices reach memory.
    pub windows: WindowLines,
}

impl Model for Config {
    ghost use Rattle.trace_read.specs.Configuration.{Configuration, IsConfigured, AreOpeningEntries};

    ghost Value = { Configuration };

    ghost view = { λ c.
        record {
          order = c.order;
          limit = c.limit;
          cpus = c.cpus;
          granted = c.grants;
          entries = c.entries;
          windows = c.windows;
        } };

    ghost invariant = { λ c.
        IsConfigured c.order c.limit c.cpus c.pool_base c.pool_order c.grants
        × AreOpeningEntries c.order c.grants.grants c.entries };
}
