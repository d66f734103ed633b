//! The running table made from the caller's entries, with the first pass of it, from which all
//! others are split.
ghost use Rattle.std.specs.Prelude.{◌≡◌, ◌≤◌, ◌<◌, true, None, IfSome};
ghost use Rattle.c_layout.specs.Entries.{states_of};
ghost use Rattle.c_layout.specs.Tables.{is_table};
ghost use Rattle.shared_pass.specs.Workings.{IsNew};
ghost use Rattle.papr_shared.specs.Passes as spec;
ghost use Rattle.entry_lock.specs.PassInvariants.{most_passes};

use c_layout::{PaprEntry, is_table};
use entry_model::EntryState;
use hpt_resize::StateHolder;
use lock_core::MOST_ACTORS;
use papr_codes::Rc;
use shared_pass::{PaprPass, Working};
use std::alloc::Global;

/// Whether the entries are a table, and there can be so many passes of it: each is an actor of the
/// table's machine.
fn can_open(entries: &[PaprEntry], order: u8, passes: u32) -> bool
    ensures { result ≡ spec.can_open (states_of entries.now) order passes }
{
    is_table(entries, order) && 0 < passes && passes <= MOST_ACTORS
}

/// A list of what the caller's entries hold. `None` for want of memory.
fn listed(alloc: Global, entries: &[PaprEntry]) -> Option<Vec<EntryState>>
    ensures { IfSome result (λ v. v.items ≡ states_of entries.now) }
{
    let Ok(mut states) = Vec::with_capacity(alloc, entries.len()) else {
        return None;
    };
    for i in 0..entries.len() {
        let Ok(()) = states.push(entries[i].state()) else {
            return None;
        };
    }
    Some(states)
}

/// A pass with all shares of a table of these entries. `None` for want of memory.
fn opened(alloc: Global, entries: &[PaprEntry], order: u8, passes: u32) -> Option<Box<Working>>
    requires table { is_table order (states_of entries.now) ≡ true }
    requires some { 0 < passes }
    requires few { passes ≤ most_passes }
    ensures { IfSome result (λ b. IsNew (states_of entries.now) order passes b.value) }
{
    let states = listed(alloc, entries)?;
    let working = Working::open(alloc, states, order, passes)?;
    match Box::new(alloc, working) {
        Ok(boxed) => Some(boxed),
        Err(_) => None,
    }
}

/// Opens a table with these entries, for 1 to 64 passes, and makes `pass`, which must be closed, a
/// pass with all shares.
#[unsafe(no_mangle)]
pub extern "C" fn papr_open(
    alloc: Global,
    entries: &[PaprEntry],
    order: u8,
    passes: u32,
    pass: &mut PaprPass,
) -> i64
    ensures { spec.IsOpening
        (states_of entries.now)
        order
        passes
        pass.old.pointer.held
        pass.new.pointer.held
        result }
{
    if pass.is_open() || !can_open(entries, order, passes) {
        return Rc::Parameter.code();
    }
    let Some(working) = opened(alloc, entries, order, passes) else {
        return Rc::NoMem.code();
    };
    pass.put(working);
    Rc::Success.code()
}
