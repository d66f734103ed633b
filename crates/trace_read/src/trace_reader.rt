//! The public reader of traces, line by line, which tests a line's bytes and cuts it into words;
//! and the pool that a trace has by default.
ghost use Rattle.std.specs.Prelude.{◌≡◌, ◌<◌, ◌≤◌, ◌^◌, IfOk, length};
ghost use Rattle.pool_range.specs.Ranges.{IsPoolRange};
ghost use Rattle.trace_read.specs.Grammar.{reading_beside, after_text, after_numbered};
ghost use Rattle.trace_read.specs.Places.{is_running};
ghost use Rattle.trace_read.specs.Read.{Reads, Ends};
ghost use Rattle.trace_read.specs.TextLines.{texts, words_of, without_cr};
ghost use Rattle.trace_read.specs.Trace.{IsAccepted};
ghost use Rattle.trace_read.specs.Configuration.{IsTraceOrder};
ghost use Rattle.trace_line.specs.Lines.{most_lines};

use crate::given::{Given, LineRefused};
use crate::lines::{drop_cr, is_text, read_words};
use crate::reader::Reader;
use crate::trace::Trace;
use crate::why::Why;
use frame_grants::Grants;
use std::alloc::Global;
use std::marker::Model;

/// The most lines that an input may have.
pub const MOST_LINES: u32 = 131_072;

/// The machine range for page tables where a trace names none: the address at which it begins.
pub const POOL_BASE: u64 = 0x10_0000_0000;

/// The binary logarithm of the size of that range in bytes.
pub const POOL_ORDER: u8 = 24;

/// Reads the lines of a trace, each with its number. A line that is refused, or for which there is
/// no memory, leaves the reader as it was.
#[derive(Drop)]
pub struct TraceReader<'a> {
    reader: Reader,
    // Room for the words of a line, so that few lines take memory.
    room: Vec<&'a [u8]>,
}

impl<'a> Model for TraceReader<'a> {
    ghost use Rattle.trace_read.specs.Grammar.{Reading};

    ghost Value = { Reading };

    ghost view = { λ r. r.reader };
}

impl<'a> TraceReader<'a> {
    /// Before the first line. The pool has `2^pool_order` bytes from `pool_base`, until a line
    /// names another. It takes no memory; what lines give is kept in `alloc`.
    pub fn new(alloc: Global, pool_base: u64, pool_order: u8) -> Self
        requires { IsPoolRange pool_base pool_order }
        ensures { result ≡ reading_beside pool_base pool_order }
    {
        TraceReader {
            reader: Reader::new(alloc, pool_base, pool_order),
            room: Vec::new(alloc),
        }
    }

    /// The number of the last line that was taken, and 0 before the first.
    pub fn taken(&self) -> u32
        ensures count { result ≡ self.now.taken }
        ensures few { result ≤ most_lines }
    {
        self.reader.taken()
    }

    /// Whether the configuration has ended.
    pub fn is_running(&self) -> bool
        ensures { result ≡ is_running self.now.stage }
    {
        self.reader.is_running()
    }

    /// How many run lines there are so far.
    pub fn lines(&self) -> usize
        ensures count { result ≡ length self.now.lines }
        ensures few { result ≤ most_lines }
    {
        self.reader.lines()
    }

    /// The binary logarithm of the size in bytes of the opening table, as the lines so far have it.
    pub fn order(&self) -> u8
        ensures value { result ≡ self.now.config.order }
        ensures order { IsTraceOrder result }
    {
        self.reader.order()
    }

    /// The memory that is granted so far.
    pub fn grants(&self) -> &Grants
        ensures { result.now ≡ self.now.config.granted }
    {
        self.reader.grants()
    }

    /// Takes a line, without the LF at its end; one CR there is dropped. Its number is above those
    /// of the lines before, and at most [`MOST_LINES`]: the numbers between have no lines. Whether
    /// the input has too many bytes is for the caller to test.
    #[tactic(auto, unfolding(crate::specs::Grammar::after_line))]
    pub fn line(&mut self, number: u32, line: &'a [u8]) -> Result<Given, LineRefused>
        requires next { self.old.taken < number }
        requires few { number ≤ most_lines }
        ensures { Reads
            (after_numbered number self.old line.now)
            (words_of (without_cr line.now))
            result
            self.old
            self.new }
    {
        let line = drop_cr(line);
        if !is_text(line) {
            return Err(LineRefused::Refused {
                why: Why::Ascii,
                grant: None,
            });
        }
        if read_words(&mut self.room, line).is_err() {
            return Err(LineRefused::Memory);
        }
        self.reader.take(number, &self.room)
    }

    /// Takes a line as [`TraceReader::line`] does, that has tabs and printable ASCII alone and is
    /// cut into its words.
    pub fn words(&mut self, number: u32, words: &[&[u8]]) -> Result<Given, LineRefused>
        requires next { self.old.taken < number }
        requires few { number ≤ most_lines }
        ensures { Reads
            (after_text (record self.old { taken = number }) (texts words.now))
            (texts words.now)
            result
            self.old
            self.new }
    {
        self.reader.take(number, words)
    }

    /// The trace that the lines have given, or [`Why::Begin`] where the configuration has not
    /// ended.
    pub fn end(self) -> Result<Trace, Why>
        ensures ends { Ends self.entry result }
        ensures accepted { IfOk result IsAccepted }
    {
        let TraceReader { reader, room: _ } = self;
        if !reader.is_running() {
            return Err(Why::Begin);
        }
        let trace = reader.into_trace();
        trace.keeps_limits();
        Ok(trace)
    }
}
