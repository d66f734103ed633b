//! The plain table as a store of entries: operations of hypervisor calls, and accesses by a cached
//! translation until its entry is removed.
ghost use Rattle.std.specs.Prelude.{◌≡◌, ◌<◌, ◌-◌, ◌^◌, IfOk, IfSome};
ghost use Rattle.hpte_fields.specs.TableSize.{entry_count};
ghost use Rattle.entry_model.specs.Receipt.{IsNormal};
ghost use Rattle.entry_model.specs.CachedLines.{IsAccessOf, IsCurrent};

use authority_mask::Masks;
use entry_model::{Answer, EntryState, EntryStore, Line, Op, Receipt, Test};
use page_sizes::decode;
use papr_table::PlainTable;
use power_addr::Page;
use std::alloc::{AllocError, Global};
use std::test::Fail;
use storage_prot::Want;

/// The order of the smallest table, and how many entries it has.
const ORDER: u8 = 18;

const ENTRIES: usize = 16384;

fn empty_table(alloc: Global) -> Result<PlainTable, AllocError>
    ensures { IfOk result (λ t. t.order ≡ 18) }
{
    let states = vec![in alloc; EntryState::empty(2); ENTRIES]?;
    Ok(PlainTable::open(states, ORDER))
}

/// An operation on an entry of any store.
fn apply_once<T: EntryStore>(store: &mut T, entry: u32, op: Op) -> Receipt
    requires in_table { entry < entry_count (T.table_order store.old) }
    requires normal { IsNormal op }
    ensures { T.table_order store.new ≡ T.table_order store.old }
{
    store.apply(entry, op)
}

#[test]
fn a_plain_table_is_a_store(rt: HostRuntime) -> Result<(), Fail> {
    let mut table = empty_table(rt.alloc())?;
    assert_eq!(rt; table.order(), 18);
    let op = Op::Enter {
        dword0: 0x1001,
        dword1: 0x3192,
    };
    let entered = apply_once(&mut table, 0x20, op);
    assert_eq!(rt;
        (entered.entry, entered.answer, entered.before),
        (0x20, Answer::Entered, EntryState::empty(2))
    );
    let read = apply_once(&mut table, 0x20, Op::Read);
    let shown = (read.before.words(), read.before.stamp);
    assert_eq!(rt;
        (read.entry, read.answer, shown),
        (0x20, Answer::Words, ((0x1001, 0x3192), 3))
    );
    Ok(())
}

#[test]
fn only_the_named_entry_changes(rt: HostRuntime) -> Result<(), Fail> {
    let mut table = empty_table(rt.alloc())?;
    let op = Op::Enter {
        dword0: 0x1001,
        dword1: 0x3192,
    };
    apply_once(&mut table, 0x20, op);
    assert_eq!(rt; table.state(0x20).words(), (0x1001, 0x3192));
    let states = table.close();
    assert_eq!(rt; states.len(), ENTRIES);
    for (entry, state) in states.iter().enumerate() {
        assert!(rt;
            entry == 0x20 || *state == EntryState::empty(2),
            "at {entry}"
        );
    }
    Ok(())
}

/// The line of a valid entry.
fn line_of(entry: u32, state: &EntryState) -> Option<Line>
    ensures { IfSome result (λ line. (line.entry ≡ entry) × IsCurrent line state.now) }
{
    state.valid.then_some(Line {
        page: Page::default(),
        entry,
        stamp: state.stamp,
        dword0: state.dword0,
        dword1: state.dword1,
    })
}

/// A store by a line's words.
#[tactic(auto, unfolding(entry_model::specs::Reply::has_base))]
fn store_by(line: &Line) -> Option<Op>
    ensures { IfSome result (λ op. IsAccessOf line.now op) }
{
    let size = decode(line.dword0, line.dword1)?;
    Some(Op::Access {
        tag: line.dword0 & 0xFFFF_FFFF_FFFF_FF83,
        base: size.base,
        key: false,
        no_execute: false,
        want: Want::Store,
        masks: Masks::default(),
    })
}

/// An access by a line, and the same again after another operation on the line's entry.
fn access_twice<T: EntryStore>(
    store: &mut T,
    known: &Line,
    op: Op,
    between: Op,
) -> (Option<Receipt>, Option<Receipt>)
    requires seen { T.seen store.old known.now }
    requires access { IsAccessOf known.now op }
    requires in_table { known.now.entry < entry_count (T.table_order store.old) }
    requires normal { IsNormal between }
    ensures { T.table_order store.new ≡ T.table_order store.old }
{
    let first = store.apply_known(known, op);
    store.apply(known.entry, between);
    (first, store.apply_known(known, op))
}

#[test]
fn an_access_by_a_line(rt: HostRuntime) -> Result<(), Fail> {
    let mut table = empty_table(rt.alloc())?;
    let op = Op::Enter {
        dword0: 0x1001,
        dword1: 0x3012,
    };
    apply_once(&mut table, 0x20, op);
    let line = line_of(0x20, &table.state(0x20)).ok_or("not valid")?;
    let store = store_by(&line).ok_or("no size")?;
    let test = Test {
        avpn: None,
        andcond: None,
    };
    let (hit, miss) = access_twice(&mut table, &line, store, Op::Remove { test });
    let hit = hit.ok_or("gone")?;
    let after = hit.after();
    assert_eq!(rt;
        (hit.entry, hit.answer, hit.before.stamp),
        (0x20, Answer::At, 3)
    );
    assert_eq!(rt;
        (after.referenced, after.changed, miss.is_none()),
        (true, true, true)
    );
    assert_eq!(rt; table.state(0x20), EntryState::empty(4));
    Ok(())
}
