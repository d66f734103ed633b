//! Accesses by cached translations, through generic code over a store.

ghost use Rattle.std.specs.Prelude.{◌≡◌, [], ◌∷◌, IfSome};
ghost use Rattle.entry_model.specs.CachedLines.{ShowsLine, IsAccessOf};
ghost use Rattle.entry_lock.specs.PassOfTable.{IsOf};

use super::{ENTRY, access, enter, no_test, open_table, page, remove};
use authority_mask::Masks;
use entry_lock::{LockTable, NoPause, Pass, Waiting};
use entry_model::{Answer, EntryStore, Line, Op, Receipt};
use page_sizes::decode;
use power_addr::Page;
use std::sync::Wait;
use std::test::Fail;
use storage_prot::Want;

/// The line that a receipt shows.
fn line_of(receipt: &Receipt) -> Option<Line>
    ensures { IfSome result (λ line. ShowsLine line (receipt.now ∷ [])) }
{
    let page = Page::of_address(false, 1, 12, 0x5000)?;
    if receipt.answer != Answer::At {
        return None;
    }
    Some(Line {
        page,
        entry: receipt.entry,
        stamp: receipt.before.stamp,
        dword0: receipt.before.dword0,
        dword1: receipt.before.dword1,
    })
}

/// A store by a line's words.
#[tactic(auto, unfolding(entry_model::specs::Reply::has_base))]
fn store_by(line: &Line) -> Option<Op>
    ensures { IfSome result (λ op. IsAccessOf line.now op) }
{
    let size = decode(line.dword0, line.dword1)?;
    Some(Op::Access {
        tag: line.dword0 & 0xFFFF_FFFF_FFFF_FF83,
        base: size.base,
        key: false,
        no_execute: false,
        want: Want::Store,
        masks: Masks::default(),
    })
}

/// A store without a line, whose line is seen afterwards.
fn store_first<T: EntryStore>(table: &mut T) -> (Receipt, Option<Line>)
    requires { T.table_order table.old ≡ 18 }
    ensures seen { IfSome result.1 (λ line. T.seen table.new line) }
    ensures order { T.table_order table.new ≡ 18 }
{
    let receipt = table.apply(ENTRY, access(Want::Store));
    (receipt, line_of(&receipt))
}

/// The stamp before and whether C was set, of an access by a line.
fn store_again<T: EntryStore>(table: &mut T, line: &Line) -> Option<(u32, bool)>
    requires seen { T.seen table.old line.now }
    requires order { T.table_order table.old ≡ 18 }
    ensures order { T.table_order table.new ≡ 18 }
    ensures seen { T.seen table.new line.now }
{
    let Some(op) = store_by(line) else {
        return None;
    };
    match table.apply_known(line, op) {
        Some(receipt) => Some((receipt.before.stamp, receipt.before.changed)),
        None => None,
    }
}

/// What stores by lines answered, before and after another pass changed the entry.
#[derive(Drop)]
struct Told {
    first: Option<(u32, bool)>,
    gone: Option<(u32, bool)>,
    stamp: u32,
    second: Option<(u32, bool)>,
}

/// A store by a walk and one by its line; the other pass's operations; a store by the line, which
/// is gone; and again a store by a walk and one by its line.
fn by_lines<R: Wait>(
    rt: &R,
    table: &LockTable,
    pass: Pass,
    other: Pass,
    between: &[Op],
) -> Option<Told>
    requires one { IsOf table.now pass × (table.now.order ≡ 18) }
    requires two { IsOf table.now other }
{
    let mut other = other;
    let mut waiting = Waiting::new(rt, table, pass, &NoPause);
    let (_, line) = store_first(&mut waiting);
    let line = line?;
    let first = store_again(&mut waiting, &line);
    for op in between {
        if other.try_apply(table, ENTRY, *op).is_err() {
            return None;
        }
    }
    let gone = store_again(&mut waiting, &line);
    let (receipt, line) = store_first(&mut waiting);
    let second = store_again(&mut waiting, &line?);
    Some(Told {
        first,
        gone,
        stamp: receipt.before.stamp,
        second,
    })
}

/// A line is used until its entry changes, also where the new entry has the same words: its stamp
/// is another one.
#[test]
fn a_line_is_gone_with_its_stamp(rt: HostRuntime) -> Result<(), Fail> {
    let protect = Op::Protect {
        test: no_test(),
        flags: 2,
    };
    let changes: [&[Op]; 2] = [&[protect], &[remove(), enter()]];
    for (between, stamp) in changes.iter().zip([1, 2]) {
        let (table, mut pass) = open_table(rt.alloc(), page(false, false, 0), 2)?;
        let other = pass.split(&table);
        let told = by_lines(&rt, &table, pass, other, between).ok_or("no line")?;
        assert_eq!(rt; told.first, Some((0, true)));
        assert_eq!(rt; told.gone, None);
        assert_eq!(rt; told.stamp, stamp);
        assert_eq!(rt; told.second, Some((stamp, true)));
    }
    Ok(())
}
