//! The set of partitions that reading gives; its type keeps the limits of accepted sets.
use crate::turn::Turn;
use pool_range::PoolRange;
use std::marker::Model;
use trace_line::TraceLine;
use trace_read::Trace;

/// A partition of a set: its number, 0 to 7, and its trace.
#[derive(Drop)]
pub struct SetPartition {
    /// Its number, 0 to 7, as its `begin` line has it.
    pub number: u8,
    /// Its configuration and its run lines.
    pub trace: Trace,
}

impl Model for SetPartition {
    ghost use Rattle.lpar_set.specs.SetTrace.{NumberedTrace};

    ghost Value = { NumberedTrace };

    ghost view = { λ p. record { number = p.number; trace = p.trace } };
}

impl SetPartition {
    ghost use Rattle.std.specs.Prelude.{◌≡◌};

    /// Its run lines, in file order.
    pub fn lines(&self) -> &[TraceLine]
        ensures { result.now ≡ self.now.trace.lines }
    {
        self.trace.lines.as_slice()
    }
}

/// An accepted set: the pool that its partitions share, the partitions in the order of their
/// `begin` lines, and the run lines in file order.
#[derive(Drop)]
pub struct SetTrace {
    pool: PoolRange,
    partitions: Vec<SetPartition>,
    turns: Vec<Turn>,
}

impl Model for SetTrace {
    ghost use Rattle.lpar_set.specs.SetTrace.{AcceptedSet, IsAcceptedSet};

    ghost Value = { AcceptedSet };

    ghost view = { λ s.
        record {
          pool_base = s.pool.base;
          pool_order = s.pool.order;
          partitions = s.partitions.items;
          turns = s.turns.items;
        } };

    ghost invariant = { λ s.
        IsAcceptedSet
        (record {
          pool_base = s.pool.base;
          pool_order = s.pool.order;
          partitions = s.partitions.items;
          turns = s.turns.items;
        }) };
}

impl SetTrace {
    ghost use Rattle.std.specs.Prelude.{◌≡◌, Contains};
    ghost use Rattle.lpar_set.specs.SetTrace.{IsAcceptedSet, partition_at, line_of};

    /// States the limits that each set keeps, and does nothing else.
    pub fn keeps_limits(&self)
        ensures { IsAcceptedSet self.now }
    {
        let _order = self.pool.order;
    }

    /// The pool that the partitions share.
    pub fn pool(&self) -> PoolRange
        ensures base { result.base ≡ self.now.pool_base }
        ensures order { result.order ≡ self.now.pool_order }
    {
        self.pool
    }

    /// The partitions, one to eight, in the order of their `begin` lines.
    pub fn partitions(&self) -> &[SetPartition]
        ensures { result.now ≡ self.now.partitions }
    {
        self.partitions.as_slice()
    }

    /// The run lines in file order.
    pub fn turns(&self) -> &[Turn]
        ensures { result.now ≡ self.now.turns }
    {
        self.turns.as_slice()
    }

    /// The number of the partition whose turn it is.
    pub fn number_of(&self, turn: &Turn) -> u8
        requires { Contains self.now.turns turn.now }
        ensures { result ≡ (partition_at self.now turn.now.partition).number }
    {
        self.partitions[turn.partition as usize].number
    }

    /// The run line that a turn is.
    pub fn line_of(&self, turn: &Turn) -> &TraceLine
        requires { Contains self.now.turns turn.now }
        ensures { result.now ≡ line_of self.now turn.now }
    {
        let lines = self.partitions[turn.partition as usize].lines();
        &lines[turn.line as usize]
    }

    /// The set of parts that make an accepted one.
    pub(crate) fn of_parts(
        pool: PoolRange,
        partitions: Vec<SetPartition>,
        turns: Vec<Turn>,
    ) -> SetTrace
        requires { IsAcceptedSet
            (record {
              pool_base = pool.base;
              pool_order = pool.order;
              partitions = partitions.items;
              turns = turns.items;
            }) }
        ensures { result
            ≡ record {
              pool_base = pool.base;
              pool_order = pool.order;
              partitions = partitions.items;
              turns = turns.items;
            } }
    {
        SetTrace {
            pool,
            partitions,
            turns,
        }
    }
}
