//! The most passes of a table: 64 shares, which splits and joins move, and closing with all of
//! them.

use super::{ENTRY, access, open_table, page};
use entry_lock::Closed;
use entry_model::{Answer, Op};
use std::test::Fail;
use storage_prot::Want;

/// A table may have 64 passes. Splits and joins move the shares, and what each pass made goes with
/// it; the pass with all of them closes the table.
#[test]
fn sixty_four_shares(rt: HostRuntime) -> Result<(), Fail> {
    let (table, mut pass) = open_table(rt.alloc(), page(false, false, 0), 64)?;
    assert_eq!(rt;
        (table.passes(), table.order(), pass.shares()),
        (64, 18, 64)
    );
    let mut other = pass.split(&table);
    assert_eq!(rt; (pass.shares(), other.shares()), (63, 1));
    let store = other.try_apply(&table, ENTRY, access(Want::Store));
    assert_eq!(rt; store.ok().map(|r| r.answer), Some(Answer::At));
    let clear = pass.try_apply(&table, ENTRY, Op::ClearMod);
    assert_eq!(rt; clear.ok().map(|r| r.before), Some(page(true, true, 0)));
    pass.join(&table, other);
    assert_eq!(rt; pass.shares(), 64);
    let Closed { opening, closing } = table.close(pass);
    assert_eq!(rt; opening.get(ENTRY as usize), Some(&page(false, false, 0)));
    assert_eq!(rt; closing.get(ENTRY as usize), Some(&page(true, false, 1)));
    Ok(())
}
