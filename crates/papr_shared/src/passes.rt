//! Passes split off and joined, and the table closed: the pass with all shares writes the entries
//! back, and those that changed are marked.
ghost use Rattle.std.specs.Prelude.{◌≡◌, nat_le, true, length, Some, None, IfOk, IfErr};
ghost use Rattle.std.specs.Arc.{arc_value};
ghost use Rattle.hpte_fields.specs.TableSize.{entry_count};
ghost use Rattle.entry_lock.specs.PassOfTable.{view_of};
ghost use Rattle.entry_lock.specs.Closing.{Closes};
ghost use Rattle.shared_pass.specs.Workings.{has_all_shares};
ghost use Rattle.papr_codes.specs.ReturnCodes.{rc_code};
ghost use Rattle.papr_codes.specs.declared.codes.Rc.TheVariants.{Success};
ghost use Rattle.c_layout.specs.Entries.{states_of, AreMarked};
ghost use Rattle.papr_shared.specs.Passes as spec;

use c_layout::PaprEntry;
use hpt_resize::StateHolder;
use hpte_fields::entry_count;
use papr_codes::Rc;
use shared_pass::{PaprPass, Room, Working};
use std::alloc::Global;

/// Puts a new pass with one of the shares into `other`.
fn split(alloc: Global, working: &mut Working, other: &mut PaprPass) -> Rc
    requires { other.old.pointer.held ≡ None }
    ensures { spec.SplitsBy
        (nat_le 2 working.old.sharer.pass.shares)
        working.old
        (spec.two_after (Some working.new) other.new.pointer.held (rc_code result)) }
{
    if working.shares() < 2 {
        return Rc::Resource;
    }
    let Some(room) = Room::take(alloc) else {
        return Rc::NoMem;
    };
    let Some(made) = working.split() else {
        room.free();
        return Rc::NoMem;
    };
    other.put(room.fill(made));
    Rc::Success
}

/// Makes `other`, which must be closed, a new pass of the same table, with one of the shares of
/// `pass`.
#[unsafe(no_mangle)]
pub extern "C" fn papr_split(alloc: Global, pass: &mut PaprPass, other: &mut PaprPass) -> i64
    ensures { spec.IsSplitting
        pass.old.pointer.held
        other.old.pointer.held
        (spec.two_after pass.new.pointer.held other.new.pointer.held result) }
{
    if other.is_open() {
        return Rc::Parameter.code();
    }
    let Some(mut working) = pass.take(alloc) else {
        return Rc::Parameter.code();
    };
    let rc = split(alloc, &mut working, other);
    pass.put(working);
    rc.code()
}

/// Takes `other` into `pass`: its shares and what it has made. `other` is closed then.
#[unsafe(no_mangle)]
pub extern "C" fn papr_join(alloc: Global, pass: &mut PaprPass, other: &mut PaprPass) -> i64
    requires { spec.AreOfOneTable pass.old.pointer.held other.old.pointer.held }
    ensures { spec.IsJoining
        pass.old.pointer.held
        other.old.pointer.held
        (spec.two_after pass.new.pointer.held other.new.pointer.held result) }
{
    let Some(mut working) = pass.take(alloc) else {
        return Rc::Parameter.code();
    };
    let Some(taken) = other.take(alloc) else {
        pass.put(working);
        return Rc::Parameter.code();
    };
    if !(working.is_free() && taken.is_free()) {
        pass.put(working);
        other.put(taken);
        return Rc::Busy.code();
    }
    working.join(Box::into_inner(taken));
    pass.put(working);
    Rc::Success.code()
}

/// A pass that isn't closed, and why.
struct StillOpen {
    working: Box<Working>,
    rc: Rc,
}

/// Gives each entry the state that it closes to, by a pass with all shares.
fn put_states(entries: &mut [PaprEntry], working: &mut Working)
    requires count { length (states_of entries.old)
        ≡ entry_count (arc_value working.old.sharer.table).order }
    requires all { has_all_shares working.old ≡ true }
    ensures closes { Closes
        (arc_value working.old.sharer.table).opening.items
        (view_of working.old.sharer.pass)
        (states_of entries.new) }
    ensures marks { AreMarked entries.old entries.new }
{
    for entry in 0..entry_count(working.order()) {
        entries[entry as usize].hold(&working.state_at_rest(entry));
    }
}

/// Writes the entries back by a pass with all shares, and lets it go, and its table with it.
#[tactic(auto, using(c_layout::proofs::Marks::marked_none))]
fn write_back(mut working: Box<Working>, entries: &mut [PaprEntry]) -> Result<(), StillOpen>
    ensures closed { let after =
        spec.closed_after (states_of entries.old) (states_of entries.new) in
        IfOk result
        (λ done. spec.ClosesBy
        (spec.close_refusal (length (states_of entries.old)) working.value)
        working.value
        (after None (rc_code Success))) }
    ensures still { let after = spec.closed_after (states_of entries.old) (states_of entries.new) in
        IfErr result
        (λ still. spec.ClosesBy
        (spec.close_refusal (length (states_of entries.old)) working.value)
        working.value
        (after (Some still.working.value) (rc_code still.rc))) }
    ensures marks { AreMarked entries.old entries.new }
{
    if entries.len() != entry_count(working.order()) as usize {
        let rc = Rc::Parameter;
        return Err(StillOpen { working, rc });
    }
    if !working.has_all_shares() {
        let rc = Rc::Resource;
        return Err(StillOpen { working, rc });
    }
    if !working.is_free() {
        let rc = Rc::Busy;
        return Err(StillOpen { working, rc });
    }
    put_states(entries, &mut working);
    Ok(())
}

/// Writes the entries back, frees the table, and closes the pass, which must have all shares. An
/// entry that has another state then is marked.
#[tactic(auto, using(c_layout::proofs::Marks::marked_none))]
#[unsafe(no_mangle)]
pub extern "C" fn papr_close(alloc: Global, pass: &mut PaprPass, entries: &mut [PaprEntry]) -> i64
    ensures told { spec.IsClosing
        pass.old.pointer.held
        (spec.closed_after
        (states_of entries.old)
        (states_of entries.new)
        pass.new.pointer.held
        result) }
    ensures marks { AreMarked entries.old entries.new }
{
    let Some(working) = pass.take(alloc) else {
        return Rc::Parameter.code();
    };
    match write_back(working, entries) {
        Ok(()) => Rc::Success.code(),
        Err(still) => {
            let StillOpen { working, rc } = still;
            pass.put(working);
            rc.code()
        }
    }
}
