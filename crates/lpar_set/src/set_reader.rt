//! Reads a set line by line: each partition's lines by a trace reader of its own, and here what
//! partitions share, the pool, machine memory and the order of lines.
ghost use Rattle.std.specs.Prelude.{◌≡◌, ℕ, ◌<◌, ◌≤◌, ◌+◌, ◌^◌, ◌++◌, [], ◌∷◌, true, false, not, length, replicate, is_some, None, Some, Err, IsSome, IfOk, OnOk, MatchResult};
ghost use Rattle.hpt_pool.specs.Pool.{lowest_place};
ghost use Rattle.trace_read.specs.Grammar.{Reading, after_text};
ghost use Rattle.trace_read.specs.Places.{is_running};
ghost use Rattle.trace_read.specs.Read.{IsParsed};
ghost use Rattle.trace_read.specs.TextLines.{texts};
ghost use Rattle.trace_read.specs.Whys.{guard};
ghost use Rattle.lpar_set.specs.OpeningTables.{with_opening};
ghost use Rattle.lpar_set.specs.SetTrace.{IsAcceptedSet};
ghost use Rattle.lpar_set.specs.SetGrammar as sets;
ghost use Rattle.lpar_set.specs.SetGrammar.{is_of_the_whole, opening_set_reading, set_beside, reading_of, refusal_beside, with_shared, with_given, after_own, after_member, after_numbered_words, after_set_words, after_set_line, set_at_end};
ghost use Rattle.lpar_set.specs.SetReadings.{IsSetReading, reading_at};
ghost use Rattle.lpar_set.specs.SetRead.{TakesTo, IsReady, MayBeGiven, MayBegin, is_early, with_own};
ghost use Rattle.trace_line.specs.Lines.{most_lines};

use crate::set::SetTrace;
use crate::set_end::{may_end, partitions_read};
use crate::set_words::{is_of_the_whole, partition_named};
use crate::strangers::meets_stranger;
use crate::turn::Turn;
use arrayvec::ArrayVec;
use frame_grants::Grant;
use hpt_pool::Pool;
use pool_range::PoolRange;
use std::alloc::{AllocError, Global};
use std::marker::Model;
use trace_read::{
    Given, LineRefused, MOST_LINES, POOL_BASE, POOL_ORDER, Stop, TraceError, TraceReader, Why,
    drop_cr, is_name, is_remark_line, is_setting, is_text, pool_named, read_words,
};

/// What the lines of a set have given so far. After a line that is refused, or for which there is
/// no memory, it is of no further use.
#[derive(Drop)]
pub struct SetReader<'a> {
    taken: u32,
    untouched: bool,
    pool: PoolRange,
    // By the numbers of the partitions.
    readings: Vec<Option<TraceReader<'a>>>,
    begun: ArrayVec<u8, 8>,
    tables: Pool,
    turns: Vec<Turn>,
}

impl<'a> Model for SetReader<'a> {
    ghost use Rattle.std.specs.Prelude.{◌≡◌, length};
    ghost use Rattle.lpar_set.specs.SetGrammar.{SetReading};

    ghost Value = { SetReading };

    ghost view = { λ r.
        record {
          taken = r.taken;
          untouched = r.untouched;
          pool_base = r.pool.base;
          pool_order = r.pool.order;
          readings = r.readings.items;
          begun = r.begun.items;
          tables = r.tables;
          turns = r.turns.items;
        } };

    ghost invariant = { λ r. length r.readings.items ≡ 8 };
}

fn no_readings<'a>(alloc: Global) -> Result<Vec<Option<TraceReader<'a>>>, AllocError>
    ensures { IfOk result (λ readings. readings.items ≡ replicate 8 None) }
{
    let mut readings = Vec::with_capacity(alloc, 8)?;
    for _i in 0..8usize {
        readings.push(None)?;
    }
    Ok(readings)
}

impl<'a> SetReader<'a> {
    /// Before the first line.
    pub fn new(alloc: Global) -> Result<Self, AllocError>
        ensures { IfOk result (λ reader. reader ≡ opening_set_reading) }
    {
        SetReader::beside(alloc, PoolRange::accepted(POOL_BASE, POOL_ORDER))
    }

    // No partition occurs yet, over this pool.
    fn beside(alloc: Global, pool: PoolRange) -> Result<Self, AllocError>
        ensures { IfOk result (λ reader. reader ≡ set_beside pool.base pool.order) }
    {
        Ok(SetReader {
            taken: 0,
            untouched: true,
            pool,
            readings: no_readings(alloc)?,
            begun: ArrayVec::new(),
            tables: Pool::within(alloc, pool)?,
            turns: Vec::new(alloc),
        })
    }

    // `shared BASE ORDER`
    #[tactic(auto, unfolding(crate::specs::SetGrammar::with_shared))]
    fn take_shared(&mut self, alloc: Global, words: &[&[u8]]) -> Result<(), Stop>
        ensures { TakesTo (with_shared self.old (texts words.now)) result self.new }
    {
        if !self.untouched {
            return Err(Stop::Refused(Why::Place));
        }
        let pool = pool_named(words)?;
        let taken = self.taken;
        *self = SetReader::beside(alloc, pool)?;
        self.taken = taken;
        self.untouched = false;
        Ok(())
    }

    // Whether a grant meets one of another partition.
    fn meets_stranger(&self, number: u8, grant: &Grant) -> bool
        ensures { result ≡ sets.meets_stranger self.now number grant.now }
    {
        meets_stranger(self.readings.as_slice(), number, grant)
    }

    // The reason that is given: a grant of another partition comes before the pool.
    fn refusal_beside(&self, number: u8, why: Why, grant: Option<Grant>) -> Why
        ensures { result ≡ refusal_beside self.now number why grant }
    {
        match grant {
            Some(grant) if self.meets_stranger(number, &grant) => Why::Overlap,
            _ => why,
        }
    }

    // A grant may not meet another partition's.
    fn check_grant(&self, number: u8, grant: &Grant) -> Result<(), Why>
        ensures { result ≡ guard (not (sets.meets_stranger self.now number grant.now)) Why.Overlap }
    {
        if self.meets_stranger(number, grant) {
            return Err(Why::Overlap);
        }
        Ok(())
    }

    // At `begin` the table takes its block of the pool.
    fn add_begin(&mut self, number: u8, order: u8) -> Result<(), Why>
        requires { MayBegin self.old order }
        ensures told { MatchResult
            result
            (λ _. is_some (lowest_place self.old.tables order) ≡ true)
            (λ why. guard (is_some (lowest_place self.old.tables order)) Why.Small ≡ Err why) }
        ensures added { OnOk
            result
            (self.new ≡ record self.old {
              begun = self.old.begun ++ number ∷ [];
              tables = with_opening self.old.tables order;
            }) }
    {
        if self.tables.take(order).is_none() {
            return Err(Why::Small);
        }
        self.begun.push(number);
        Ok(())
    }

    // The place of a partition in the order of `begin` lines.
    fn begun_at(&self, number: u8) -> u8
        ensures { result ≡ sets.begun_at self.now.begun number }
    {
        for (i, begun) in self.begun.as_slice().iter().enumerate() {
            if *begun == number {
                return i as u8;
            }
        }
        self.begun.len() as u8
    }

    // A run line is one more turn.
    fn add_turn(&mut self, number: u8, line: u32) -> Result<(), AllocError>
        ensures { OnOk
            result
            (self.new ≡ record self.old {
              turns = self.old.turns
                  ++ record { partition = sets.begun_at self.old.begun number; line = line } ∷ [];
            }) }
    {
        let partition = self.begun_at(number);
        self.turns.push(Turn { partition, line })?;
        Ok(())
    }

    // What an accepted line adds, after so many run lines of its partition, whose reading has it.
    #[tactic(auto, unfolding(crate::specs::SetGrammar::with_given))]
    fn add(&mut self, number: u8, line: u32, given: Given) -> Result<(), Stop>
        requires may { MayBeGiven self.old given }
        ensures { (old new : Reading)
            → reading_at self.old number ≡ Some new
            → length old.lines ≡ line
            → TakesTo (with_given self.old number old new given) result self.new }
    {
        self.untouched = false;
        match given {
            Given::Remark | Given::Setting => {}
            Given::Grant(grant) => self.check_grant(number, &grant)?,
            Given::Begin { order } => self.add_begin(number, order)?,
            Given::Run => self.add_turn(number, line)?,
        }
        Ok(())
    }

    // The partition's own reading is one of the readings from here on.
    fn open(&mut self, alloc: Global, number: u8)
        requires { number < 8 }
        ensures { self.new ≡ with_own self.old number }
    {
        let pool = self.pool;
        let reading = &mut self.readings[usize::from(number)];
        if reading.is_none() {
            *reading = Some(TraceReader::new(alloc, pool.base, pool.order));
        }
    }

    // A line of a partition that has a reading.
    #[tactic(auto, unfolding(crate::specs::SetGrammar::after_own))]
    fn take_own(&mut self, number: u8, words: &[&[u8]]) -> Result<(), Stop>
        requires few { self.old.taken ≤ most_lines }
        requires number { number < 8 }
        requires allowed { is_of_the_whole (texts words.now) ≡ false }
        requires own { IsSome (reading_at self.old number) }
        requires earlier { (reading_of self.old number).taken < self.old.taken }
        requires place { is_running (reading_of self.old number).stage ≡ false
            → length self.old.begun < 8 }
        ensures { let old = reading_of self.old number in
            TakesTo
            (after_own
            self.old
            number
            old
            (texts words.now)
            (after_text (record old { taken = self.old.taken }) (texts words.now)))
            result
            self.new }
    {
        let taken = self.taken;
        let Some(reader) = &mut self.readings[usize::from(number)] else {
            unreachable!();
        };
        let line = reader.lines() as u32;
        let _order = reader.order();
        match reader.words(taken, words) {
            Ok(given) => self.add(number, line, given),
            Err(LineRefused::Memory) => Err(Stop::Memory),
            Err(LineRefused::Refused { why, grant }) => {
                Err(Stop::Refused(self.refusal_beside(number, why, grant)))
            }
        }
    }

    // Whether the partition's `begin` has come.
    fn has_begun(&self, number: u8) -> bool
        requires { number < 8 }
        ensures { result ≡ is_running (reading_of self.now number).stage }
    {
        match &self.readings[usize::from(number)] {
            None => false,
            Some(reader) => reader.is_running(),
        }
    }

    // Whether a configuration line comes after a run line of another partition. Once its own has
    // begun its reading refuses it, so the form of most lines is looked at once.
    fn is_early(&self, number: u8, words: &[&[u8]]) -> bool
        requires { number < 8 }
        ensures early { result ≡ is_early self.now number (texts words.now) }
        ensures eight { length self.now.readings ≡ 8 }
    {
        !self.turns.is_empty() && !self.has_begun(number) && is_setting(words)
    }

    // A line of a partition.
    #[tactic(auto, unfolding(crate::specs::SetGrammar::after_member))]
    fn take_member(&mut self, alloc: Global, number: u8, words: &[&[u8]]) -> Result<(), Stop>
        requires ready { IsReady self.old }
        requires number { number < 8 }
        requires allowed { is_of_the_whole (texts words.now) ≡ false }
        ensures { TakesTo (after_member self.old number (texts words.now)) result self.new }
    {
        if self.is_early(number, words) {
            return Err(Stop::Refused(Why::Place));
        }
        self.open(alloc, number);
        self.take_own(number, words)
    }

    // A line that names its partition.
    #[tactic(auto, unfolding(crate::specs::SetGrammar::after_numbered_words))]
    fn take_numbered(&mut self, alloc: Global, first: &[u8], words: &[&[u8]]) -> Result<(), Stop>
        requires ready { IsReady self.old }
        requires allowed { is_of_the_whole (texts words.now) ≡ false }
        ensures { TakesTo
            (after_numbered_words self.old first.now (texts words.now))
            result
            self.new }
    {
        let number = partition_named(first)?;
        self.take_member(alloc, number, words)
    }

    // The words of a line.
    #[tactic(auto, unfolding(crate::specs::SetGrammar::after_set_words, crate::specs::SetGrammar::after_allowed))]
    fn take_words(&mut self, alloc: Global, words: &[&[u8]]) -> Result<(), Stop>
        requires { IsReady self.old }
        ensures { TakesTo (after_set_words self.old (texts words.now)) result self.new }
    {
        let [first, rest @ ..] = words else {
            return Ok(());
        };
        if is_remark_line(words) {
            return Ok(());
        }
        if is_of_the_whole(rest) {
            return Err(Stop::Refused(Why::Lpar));
        }
        if is_name(first, "shared") {
            self.take_shared(alloc, words)
        } else {
            self.take_numbered(alloc, first, rest)
        }
    }

    /// The number of lines that were taken.
    pub fn taken(&self) -> u32
        ensures { result ≡ self.now.taken }
    {
        self.taken
    }

    /// Takes the next line, without the LF at its end; one CR there is dropped. The room is for its
    /// words.
    pub fn line(
        &mut self,
        alloc: Global,
        room: &mut Vec<&'a [u8]>,
        line: &'a [u8],
    ) -> Result<(), Stop>
        requires sound { IsSetReading self.old }
        ensures taken { TakesTo (after_set_line self.old line.now) result self.new }
        ensures sound { OnOk result (IsSetReading self.new) }
    {
        self.take_line(alloc, room, line)
    }

    #[tactic(auto, unfolding(crate::specs::SetGrammar::after_set_line))]
    fn take_line(
        &mut self,
        alloc: Global,
        room: &mut Vec<&'a [u8]>,
        line: &'a [u8],
    ) -> Result<(), Stop>
        requires { IsSetReading self.old }
        ensures { TakesTo (after_set_line self.old line.now) result self.new }
    {
        if self.taken >= MOST_LINES {
            return Err(Stop::Refused(Why::Lines));
        }
        let line = drop_cr(line);
        if !is_text(line) {
            return Err(Stop::Refused(Why::Ascii));
        }
        read_words(room, line)?;
        self.taken += 1;
        self.take_words(alloc, room)
    }

    /// The set that the lines have given, or the missing `begin`, refused one line past the last.
    pub fn end(self, alloc: Global) -> Result<SetTrace, TraceError>
        requires sound { IsSetReading self }
        ensures parsed { IsParsed result (set_at_end self.entry) }
        ensures accepted { IfOk result IsAcceptedSet }
    {
        let SetReader {
            taken,
            untouched: _,
            pool,
            readings,
            begun,
            tables: _,
            turns,
        } = self;
        if !may_end(readings.as_slice()) {
            return Err(TraceError::Line {
                line: taken + 1,
                why: Why::Begin,
            });
        }
        match partitions_read(alloc, readings, begun.as_slice()) {
            Ok(partitions) => Ok(SetTrace::of_parts(pool, partitions, turns)),
            Err(_) => Err(TraceError::Memory),
        }
    }
}
