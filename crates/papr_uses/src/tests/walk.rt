//! Walks of one page over tables with at most one valid entry: how many entries are tried, and what
//! the last one answers.
use super::empty_table;
use authority_mask::Masks;
use entry_model::{Answer, EntryStore, Op};
use hpt_walk::{
    WalkAnswer, access_op, access_tells_page, current_lines_decide, lines_match_accesses, walk,
    walk_finds_first, walks_give_lines,
};
use hpte_fields::normal;
use papr_table::PlainTable;
use power_addr::Page;
use std::alloc::Global;
use std::process::Abort;
use std::test::Fail;
use storage_prot::Want;

/// The index of the page under test, in 4 KB pages of segment 1: its groups are 4 and 0x7FB.
const INDEX: u64 = 5;

/// Its entries, in the order of a walk.
const WALKED: [u32; 16] = [
    0x20, 0x21, 0x22, 0x23, 0x24, 0x25, 0x26, 0x27, 0x3FD8, 0x3FD9, 0x3FDA, 0x3FDB, 0x3FDC, 0x3FDD,
    0x3FDE, 0x3FDF,
];

/// A walk over a table of empty entries except for this one: how many receipts it makes, and what
/// the last one says.
struct Row {
    name: &'static str,
    entry: u32,
    words: (u64, u64),
    want: Want,
    count: usize,
    last: Answer,
}

const ROWS: &[Row] = &[
    Row {
        name: "in the primary group",
        entry: 0x20,
        words: (0x1001, 0x3012),
        want: Want::Load,
        count: 1,
        last: Answer::At,
    },
    Row {
        name: "in the secondary group",
        entry: 0x3FD8,
        words: (0x1003, 0x3012),
        want: Want::Load,
        count: 9,
        last: Answer::At,
    },
    Row {
        name: "a store to a page that may only be read",
        entry: 0x20,
        words: (0x1001, 0x3013),
        want: Want::Store,
        count: 1,
        last: Answer::Denied,
    },
];

/// An empty table except for the row's entry.
fn table_of(alloc: Global, row: &Row) -> Result<PlainTable, Fail> {
    let mut table = empty_table(alloc)?;
    let (pteh, ptel) = row.words;
    let (dword0, dword1) = normal(pteh, ptel).ok_or("no words of an entry")?;
    if row.entry >= 0x4000 {
        return Err("no entry of the table".into());
    }
    let _entered = table.apply(row.entry, Op::Enter { dword0, dword1 });
    Ok(table)
}

/// A walk of the page under test with key 0.
fn walk_of_page(table: &mut PlainTable, want: Want) -> Option<WalkAnswer> {
    let page = Page::new(false, 1, 12, INDEX)?;
    Some(walk(table, &page, want, false, false, Masks::default()))
}

/// The receipts of a walk are of the entries in their order: all before the last say NoMatch.
fn assert_walked(rt: &impl Abort, name: &str, answer: &WalkAnswer, count: usize, last: Answer) {
    let receipts = answer.receipts.as_slice();
    assert_eq!(rt; receipts.len(), count, "at {name}");
    for (place, receipt) in receipts.iter().enumerate() {
        assert_eq!(rt; Some(&receipt.entry), WALKED.get(place), "at {name}");
        let said = if place + 1 == count {
            last
        } else {
            Answer::NoMatch
        };
        assert_eq!(rt; receipt.answer, said, "at {name}");
    }
}

#[test]
fn a_page_of_the_table(rt: HostRuntime) -> Result<(), Fail> {
    for row in ROWS {
        let mut table = table_of(rt.alloc(), row)?;
        let answer = walk_of_page(&mut table, row.want).ok_or("no page")?;
        assert_walked(&rt, row.name, &answer, row.count, row.last);
        let found = answer.found.ok_or("no entry")?;
        let is = (found.entry, found.answer, found.before.stamp);
        assert_eq!(rt; is, (row.entry, row.last, 1), "at {}", row.name);
    }
    Ok(())
}

#[test]
fn a_page_that_no_entry_translates(rt: HostRuntime) -> Result<(), Fail> {
    let mut table = empty_table(rt.alloc())?;
    let answer = walk_of_page(&mut table, Want::Load).ok_or("no page")?;
    assert_walked(&rt, "an empty table", &answer, 16, Answer::NoMatch);
    assert!(rt; answer.found.is_none());
    Ok(())
}

#[test]
fn the_operation_of_an_access(rt: HostRuntime) -> Result<(), Fail> {
    let page = Page::new(false, 1, 12, INDEX).ok_or("no page")?;
    let op = Op::Access {
        tag: 0x1003,
        base: 12,
        key: true,
        no_execute: false,
        want: Want::Fetch,
        masks: Masks::default(),
    };
    assert_eq!(rt;
        access_op(&page, true, false, Want::Fetch, Masks::default(), true),
        op
    );
    access_tells_page();
    walk_finds_first();
    walks_give_lines();
    lines_match_accesses();
    current_lines_decide();
    Ok(())
}
