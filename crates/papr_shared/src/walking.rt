//! Walks by one pass on the running table for C: one that finds an entry busy is kept by the pass,
//! and goes on later.
ghost use Rattle.std.specs.Prelude.{◌≡◌, map, IfOk, IfErr};
ghost use Rattle.entry_model.specs.Receipt.{found_of};
ghost use Rattle.c_layout.specs.Slots.{filled, shown_receipt};
ghost use Rattle.shared_pass.specs.Walks.{walk_asked};
ghost use Rattle.papr_shared.specs.Answers.{handed_walk};
ghost use Rattle.papr_shared.specs.Walks.{end_told, busy_told, IsWalkBy, IsWalkAgainBy, IsWalk, IsWalkAgain};

use c_layout::{NO_PAGE, PaprAccess, PaprReceipt, PaprWalk, put_receipts};
use entry_lock::Busy;
use entry_model::{Receipt, reply};
use shared_pass::{PageWalk, PaprPass, Pending, Working};
use std::alloc::Global;

/// An entry is busy.
const BUSY: u32 = 6;

/// Puts the receipts of a walk into the caller's slots, as far as these go, and gives how a try of
/// it ended.
fn hand_over_walk(
    working: &Working,
    walk: &PageWalk,
    tried: &Result<Option<Receipt>, Busy>,
    receipts: &mut [PaprReceipt],
) -> PaprWalk
    requires { IfOk tried.now (λ found. found ≡ found_of working.now.receipts) }
    ensures put { receipts.new ≡ filled receipts.old (map shown_receipt working.now.receipts) }
    ensures end { IfOk tried.now
        (λ found. result ≡ end_told walk.now working.now.receipts receipts.old) }
    ensures busy { IfErr tried.now
        (λ busy. result ≡ busy_told working.now.receipts receipts.old) }
{
    let filled = put_receipts(working.receipts.as_slice(), receipts);
    match tried {
        Ok(Some(receipt)) => {
            let (_, now) = reply(&receipt.before, &receipt.op);
            PaprWalk::end(&walk.access, walk.want, receipt, &now, filled)
        }
        Ok(None) => PaprWalk::no_entry(NO_PAGE, filled),
        Err(_) => PaprWalk::no_entry(BUSY, filled),
    }
}

/// Makes a walk, if its arguments are in range and the pass has nothing to go on with.
fn begin(working: &mut Working, access: &PaprAccess, receipts: &mut [PaprReceipt]) -> PaprWalk
    ensures { IsWalkBy
        working.old.pending
        (walk_asked access.now)
        working.old
        working.new
        (handed_walk receipts.old receipts.new result) }
{
    if !working.is_free() {
        return PaprWalk::refused();
    }
    let Some(walk) = PageWalk::of(access) else {
        return PaprWalk::refused();
    };
    let tried = working.begin_walk(&walk);
    hand_over_walk(working, &walk, &tried, receipts)
}

/// Goes on with a walk, if the pass has one.
fn go_on(working: &mut Working, receipts: &mut [PaprReceipt]) -> PaprWalk
    ensures { IsWalkAgainBy
        working.old.pending
        working.old
        working.new
        (handed_walk receipts.old receipts.new result) }
{
    let Pending::Walk { walk } = working.pending else {
        return PaprWalk::refused();
    };
    let tried = working.walk_again(&walk);
    hand_over_walk(working, &walk, &tried, receipts)
}

/// An access to `ea` by the entry of its page: the walk of the page's two groups, which records R
/// and C in the entry.
#[unsafe(no_mangle)]
pub extern "C" fn papr_try_walk(
    alloc: Global,
    pass: &mut PaprPass,
    access: &PaprAccess,
    receipts: &mut [PaprReceipt],
) -> PaprWalk
    ensures { IsWalk
        access.now
        pass.old.pointer.held
        pass.new.pointer.held
        (handed_walk receipts.old receipts.new result) }
{
    let Some(mut working) = pass.take(alloc) else {
        return PaprWalk::refused();
    };
    let walk = begin(&mut working, access, receipts);
    pass.put(working);
    walk
}

/// Goes on with the walk of this pass that is held up. The receipts are those of the whole walk,
/// from the first slot on.
#[unsafe(no_mangle)]
pub extern "C" fn papr_walk_again(
    alloc: Global,
    pass: &mut PaprPass,
    receipts: &mut [PaprReceipt],
) -> PaprWalk
    ensures { IsWalkAgain
        pass.old.pointer.held
        pass.new.pointer.held
        (handed_walk receipts.old receipts.new result) }
{
    let Some(mut working) = pass.take(alloc) else {
        return PaprWalk::refused();
    };
    let walk = go_on(&mut working, receipts);
    pass.put(working);
    walk
}
