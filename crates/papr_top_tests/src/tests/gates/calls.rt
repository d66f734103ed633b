//! A gate that lists its calls, each with its place, processor and line, in the order in which they
//! came, and holds a processor at some of them.
use papr_top::Gate;
use std::alloc::Global;
use std::fmt::Write;
use std::sync::atomic::{AtomicU64, Ordering};
use std::test::Fail;

/// The places at which a gate is called.
#[derive(Clone, Copy)]
pub enum Place {
    Before,
    Step,
    Held,
    After,
}

/// What the places are called in a list, by their numbers.
const NAMES: [&str; 4] = ["before", "step", "held", "after"];

impl Place {
    /// The place's number among the four.
    fn number(self) -> u64 {
        match self {
            Place::Before => 0,
            Place::Step => 1,
            Place::Held => 2,
            Place::After => 3,
        }
    }
}

/// A place in a line.
#[derive(Clone, Copy)]
pub struct Point {
    /// Which place.
    pub place: Place,
    /// The number of the line, from 1 in the input.
    pub line: u32,
}

impl Point {
    /// Whether the call is at this place in this line.
    fn is_at(self, call: &Call) -> bool {
        call.line.load(Ordering::SeqCst) == u64::from(self.line)
            && call.place.load(Ordering::SeqCst) == self.place.number()
    }
}

/// Holds the processor that comes to one point until another point is reached.
#[derive(Clone, Copy)]
pub struct Hold {
    /// Where the processor is held.
    pub at: Point,
    /// What it waits for.
    pub until: Point,
    /// Whether the other point is to be reached: in many turns it must be, in a few it must not.
    pub comes: bool,
}

impl Hold {
    /// For how many turns the processor is held at most.
    fn turns(&self) -> u32 {
        if self.comes { 1 << 26 } else { 1 << 18 }
    }
}

/// Holds whoever comes to a place in a line until another line's place is reached.
pub const fn held_until(at: (Place, u32), until: (Place, u32), comes: bool) -> Hold {
    Hold {
        at: Point {
            place: at.0,
            line: at.1,
        },
        until: Point {
            place: until.0,
            line: until.1,
        },
        comes,
    }
}

/// The most calls that are kept.
const MOST: u64 = 256;

/// One call.
#[derive(Drop)]
struct Call {
    place: AtomicU64,
    cpu: AtomicU64,
    line: AtomicU64,
}

/// The calls so far, how many there were, and who is held where.
#[derive(Drop)]
pub struct Calls<'a> {
    count: AtomicU64,
    kept: Vec<Call>,
    holds: &'a [Hold],
    failed: AtomicU64,
}

impl<'a> Calls<'a> {
    /// No call, with room for 256.
    pub fn new(alloc: Global, holds: &'a [Hold]) -> Result<Self, Fail> {
        let mut kept = Vec::new(alloc);
        for _ in 0..MOST {
            kept.push(Call {
                place: AtomicU64::new(0),
                cpu: AtomicU64::new(0),
                line: AtomicU64::new(0),
            })?;
        }
        Ok(Calls {
            count: AtomicU64::new(0),
            kept,
            holds,
            failed: AtomicU64::new(0),
        })
    }

    /// Adds a call at the end of the list. Its line is stored last: with it the call is there.
    fn note(&self, place: Place, cpu: u32, line: u32) {
        let index = self.count.fetch_add(1, Ordering::SeqCst) as usize;
        if let Some(call) = self.kept.get(index) {
            call.place.store(place.number(), Ordering::SeqCst);
            call.cpu.store(u64::from(cpu), Ordering::SeqCst);
            call.line.store(u64::from(line), Ordering::SeqCst);
        }
    }

    /// Whether the point was reached.
    fn has(&self, point: Point) -> bool {
        self.kept
            .iter()
            .take(self.count() as usize)
            .any(|call| point.is_at(call))
    }

    /// Holds the processor. Where the other point comes too late or too early, the run has failed.
    fn wait(&self, hold: &Hold) {
        let turns = hold.turns();
        let came = (0..turns).any(|_| self.has(hold.until));
        if came != hold.comes {
            self.failed.store(1, Ordering::SeqCst);
        }
    }

    /// Notes the call, and holds the processor as each hold at this point says.
    fn reach(&self, place: Place, cpu: u32, line: u32) {
        self.note(place, cpu, line);
        for hold in self.holds {
            if hold.at.line == line && hold.at.place.number() == place.number() {
                self.wait(hold);
            }
        }
    }

    /// Whether each hold ended as it was to.
    pub fn is_kept(&self) -> bool {
        self.failed.load(Ordering::SeqCst) == 0
    }

    /// How many there were.
    pub fn count(&self) -> u64 {
        self.count.load(Ordering::SeqCst)
    }

    /// The calls of one processor, a line for each: its place, its processor and its line.
    pub fn of(&self, alloc: Global, cpu: u64) -> Result<String, Fail> {
        let mut text = String::new(alloc);
        for call in self.kept.iter().take(self.count() as usize) {
            if call.cpu.load(Ordering::SeqCst) == cpu {
                let place = call.place.load(Ordering::SeqCst) as usize;
                let name = NAMES.get(place).ok_or("no such place")?;
                let line = call.line.load(Ordering::SeqCst);
                write!(text, "{name} {cpu} {line}\n")?;
            }
        }
        Ok(text)
    }
}

impl Gate for Calls<'_> {
    fn before(&self, cpu: u32, line: u32) {
        self.reach(Place::Before, cpu, line);
    }

    fn step(&self, cpu: u32, line: u32) {
        self.reach(Place::Step, cpu, line);
    }

    fn held(&self, cpu: u32, line: u32) {
        self.reach(Place::Held, cpu, line);
    }

    fn after(&self, cpu: u32, line: u32) {
        self.reach(Place::After, cpu, line);
    }
}
