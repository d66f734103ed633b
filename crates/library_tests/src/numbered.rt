//! Lines given to a trace reader one at a time, with their numbers: what each gives, and that a
//! refused one changes nothing.
use frame_grants::{Grant, Kind};
use std::process::Abort;
use std::test::Fail;
use trace_read::{
    Given, LineRefused, MOST_LINES, Trace, TraceReader, Why, is_remark_line, is_setting, is_text,
    pool_named, read_words,
};

/// What a line gives at a number that may come next.
fn taken<'a>(
    reader: &mut TraceReader<'a>,
    number: u32,
    line: &'a str,
) -> Result<Result<Given, LineRefused>, Fail> {
    if number <= reader.taken() || number > MOST_LINES {
        return Err("no further number".into());
    }
    Ok(reader.line(number, line.as_bytes()))
}

/// A pool of 1 MB.
const BASE: u64 = 0x20_0000_0000;

/// Lines, and what each gives.
const GIVEN: &[(u32, &str, Given)] = &[
    (2, "# order 18", Given::Remark),
    (3, "order 19\r", Given::Setting),
    (
        5,
        "ram 0 0x1000000000 0x1000",
        Given::Grant(Grant {
            logical: 0,
            machine: 0x10_0000_0000,
            length: 0x1000,
            kind: Kind::Ram,
        }),
    ),
    (
        6,
        "entry old 0x20 00000000000010010000000000000012",
        Given::Setting,
    ),
    (7, "begin", Given::Begin { order: 19 }),
    (9, "0 slbclear", Given::Run),
    (131_072, "dump", Given::Run),
];

/// Takes the lines of [`GIVEN`].
fn take_given(rt: &impl Abort, reader: &mut TraceReader<'static>) -> Result<(), Fail> {
    for (number, line, given) in GIVEN {
        assert_eq!(rt; taken(reader, *number, line)?, Ok(*given), "at {line}");
        assert_eq!(rt; reader.taken(), *number);
    }
    Ok(())
}

/// What a reader answers after the lines of [`GIVEN`].
fn check_reader(rt: &impl Abort, reader: &TraceReader<'_>) {
    assert_eq!(rt; (reader.is_running(), reader.lines()), (true, 2));
    assert_eq!(rt; reader.grants().list().len(), 1);
}

/// The trace of the lines of [`GIVEN`].
fn check_trace(rt: &impl Abort, trace: &Trace) {
    assert_eq!(rt; trace.config.pool_base, BASE);
    let lines = trace.lines.as_slice();
    assert_eq!(rt; lines.len(), 2);
    assert_eq!(rt; (lines[0].number, lines[1].number), (9, 131_072));
}

#[test]
fn numbered_lines_give_a_trace(rt: HostRuntime) -> Result<(), Fail> {
    let mut reader = TraceReader::new(rt.alloc(), BASE, 20);
    assert_eq!(rt; reader.taken(), 0);
    take_given(&rt, &mut reader)?;
    check_reader(&rt, &reader);
    let trace = reader.end()?;
    check_trace(&rt, &trace);
    Ok(())
}

/// Refused lines in this order, the reason of each, and the grant that is named.
const REFUSED: &[(u32, &str, Why, Option<Grant>)] = &[
    (1, "\x7f", Why::Ascii, None),
    (2, "begin\r\r", Why::Ascii, None),
    (3, "orders 18", Why::Word, None),
    (4, "dump", Why::Place, None),
    (5, "order 17", Why::Range, None),
    (
        6,
        "ram 0 0x2000000000 0x1000",
        Why::Tables,
        Some(Grant {
            logical: 0,
            machine: 0x20_0000_0000,
            length: 0x1000,
            kind: Kind::Ram,
        }),
    ),
    (7, "io 0x1000 0x2000000000 0", Why::Empty, None),
];

/// Refuses the lines of [`REFUSED`].
fn refuse_all(rt: &impl Abort, reader: &mut TraceReader<'static>) -> Result<(), Fail> {
    for (number, line, why, grant) in REFUSED {
        let refused = LineRefused::Refused {
            why: *why,
            grant: *grant,
        };
        assert_eq!(rt; taken(reader, *number, line)?, Err(refused), "at {line}");
        assert_eq!(rt; reader.taken(), 0);
    }
    Ok(())
}

#[test]
fn a_refused_line_changes_nothing(rt: HostRuntime) -> Result<(), Fail> {
    let mut reader = TraceReader::new(rt.alloc(), BASE, 20);
    refuse_all(&rt, &mut reader)?;
    assert_eq!(rt; taken(&mut reader, 1, "order 18")?, Ok(Given::Setting));
    assert!(rt; !reader.is_running());
    assert!(rt; matches!(reader.end(), Err(Why::Begin)));
    Ok(())
}

/// What is known from the words of a line that names a pool.
fn check_words(rt: &impl Abort, words: &[&[u8]]) -> Result<(), Fail> {
    assert_eq!(rt; words.len(), 3);
    assert_eq!(rt; (is_setting(words), is_remark_line(words)), (true, false));
    match pool_named(words) {
        Ok(range) => assert_eq!(rt; (range.base, range.order), (0x30_0000_0000, 20)),
        Err(_) => return Err("no range".into()),
    }
    Ok(())
}

#[test]
fn words_are_read_as_their_line(rt: HostRuntime) -> Result<(), Fail> {
    let line = b"pool 0x3000000000\t20";
    assert!(rt; is_text(line));
    let mut words = Vec::new(rt.alloc());
    read_words(&mut words, line)?;
    check_words(&rt, &words)?;
    let mut reader = TraceReader::new(rt.alloc(), BASE, 20);
    assert_eq!(rt; reader.words(4, &words), Ok(Given::Setting));
    assert_eq!(rt; reader.taken(), 4);
    Ok(())
}
