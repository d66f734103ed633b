//! Four actors on a table of three entries, past ten thousand receipts. Each receipt and each state
//! is compared with what it has to be.

ghost use Rattle.std.specs.Prelude.{◌≡◌, ◌<◌, length, bit_and, IfOk};
ghost use Rattle.hpte_fields.specs.Fields.{rc_bits};

use super::Line;
use authority_mask::Masks;
use entry_model::{Answer, EntryState, Op, Receipt};
use lock_core::{CoreError, Step};
use lock_machine::Core;
use std::alloc::Global;
use std::process::Abort;
use std::test::Fail;
use storage_prot::Want;

/// In each turn every actor makes a receipt. Turn n is on entry n % 3.
const TURNS: u32 = 2520;

// What an actor does in a turn: in turn n actor (r + n) % 4 has role r.
const STORER: u32 = 0;

const LOADER: u32 = 1;

const CLEARER: u32 = 2;

const READER: u32 = 3;

/// What a receipt says.
type Told = (u32, EntryState, Op, Answer);

/// The doublewords of an entry: each one is of another page.
fn words_of(entry: u32) -> (u64, u64)
    ensures { bit_and result.1 rc_bits ≡ 0 }
{
    match entry {
        0 => (0x1001, 0x3012),
        1 => (0x2001, 0x5012),
        _ => (0x3001, 0x7012),
    }
}

/// An access by an entry's page.
fn access(entry: u32, want: Want) -> Op {
    Op::Access {
        tag: words_of(entry).0,
        base: 12,
        key: false,
        no_execute: false,
        want,
        masks: Masks::default(),
    }
}

fn lock(entry: u32, op: Op) -> Step {
    Step::Lock { entry, op }
}

fn look(entry: u32, op: Op) -> Step {
    Step::Look { entry, op }
}

/// The state of a turn's entry before the turn: C was cleared once in each turn before on this
/// entry.
fn state_before(turn: u32) -> EntryState {
    let (dword0, dword1) = words_of(turn % 3);
    EntryState {
        valid: true,
        dword0,
        dword1,
        referenced: turn >= 3,
        changed: false,
        stamp: turn / 3 + 1,
    }
}

/// The same after the turn's store.
fn state_stored(turn: u32) -> EntryState {
    let (dword0, dword1) = words_of(turn % 3);
    EntryState {
        valid: true,
        dword0,
        dword1,
        referenced: true,
        changed: true,
        stamp: turn / 3 + 1,
    }
}

/// What the receipt says that the actor with this role makes in a turn.
fn told_in(role: u32, turn: u32) -> Told
    requires { turn < TURNS }
{
    let e = turn % 3;
    match role {
        STORER => (e, state_before(turn), access(e, Want::Store), Answer::At),
        LOADER => (e, state_stored(turn), access(e, Want::Load), Answer::At),
        CLEARER => (e, state_stored(turn), Op::ClearMod, Answer::Was),
        _ => (
            (turn + 1) % 3,
            state_before(turn + 1),
            Op::Read,
            Answer::Words,
        ),
    }
}

fn told(receipt: &Receipt) -> Told {
    (receipt.entry, receipt.before, receipt.op, receipt.answer)
}

/// The machine of three entries and four actors, which are all live.
fn machine(alloc: Global) -> Result<Core, &'static str>
    ensures entries { IfOk result (λ core. length core.entries ≡ 3) }
    ensures actors { IfOk result (λ core. length core.actors ≡ 4) }
{
    let states = [state_before(0), state_before(1), state_before(2)];
    match Core::new(alloc, &states, 4) {
        Ok(core) => Ok(core),
        Err(_) => Err("no machine"),
    }
}

/// Takes the steps of a turn in their order, each of the actor that has the role.
fn play(rt: &impl Abort, alloc: Global, core: &mut Core, turn: u32, lines: &[Line])
    ensures entries { length core.new.entries ≡ length core.old.entries }
    ensures actors { length core.new.actors ≡ length core.old.actors }
{
    for (role, step, refusal) in lines {
        let actor = role.wrapping_add(turn) % 4;
        let answer = core.step(alloc, actor, *step);
        assert_eq!(rt;
            answer.err(),
            *refusal,
            "{step:?} of actor {actor} in turn {turn}"
        );
    }
}

/// A store, a load and a clearing of C on the turn's entry, and a reading of the next turn's, all
/// of which are under way at once.
fn take_turn(rt: &impl Abort, alloc: Global, core: &mut Core, turn: u32)
    requires { turn < TURNS }
    ensures entries { length core.new.entries ≡ length core.old.entries }
    ensures actors { length core.new.actors ≡ length core.old.actors }
{
    let entry = turn % 3;
    let next = (turn + 1) % 3;
    let store = access(entry, Want::Store);
    let load = access(entry, Want::Load);
    let lines = [
        (READER, lock(next, Op::Read), None),
        (CLEARER, lock(entry, Op::ClearMod), None),
        (STORER, look(entry, store), None),
        (STORER, Step::LoadData { second: false }, None),
        (CLEARER, Step::LoadData { second: false }, None),
        (STORER, Step::LoadData { second: true }, None),
        (CLEARER, Step::LoadData { second: true }, None),
        (STORER, Step::Mark, None),
        (STORER, lock(entry, Op::Read), None),
        (LOADER, look(entry, load), None),
        (READER, Step::LoadData { second: true }, None),
        (LOADER, Step::LoadData { second: true }, None),
        (LOADER, Step::LoadData { second: false }, None),
        (LOADER, look(entry, load), None),
        (CLEARER, Step::Shut, None),
        (LOADER, Step::Mark, Some(CoreError::Phase)),
        (CLEARER, Step::StoreData { second: true }, None),
        (CLEARER, Step::Settle, None),
        (READER, Step::LoadData { second: false }, None),
        (READER, Step::Release, None),
    ];
    play(rt, alloc, core, turn, &lines);
}

/// All turns: each leaves its entry without C, at the next stamp.
fn take_turns(rt: &impl Abort, alloc: Global, core: &mut Core)
    requires { length core.old.entries ≡ 3 }
    ensures entries { length core.new.entries ≡ length core.old.entries }
    ensures actors { length core.new.actors ≡ length core.old.actors }
{
    for turn in 0..TURNS {
        take_turn(rt, alloc, core, turn);
        assert_eq!(rt;
            core.state(turn % 3),
            state_before(turn + 3),
            "after turn {turn}"
        );
    }
}

/// The receipts of the actors one after the other, each actor's in the order of its turns.
fn compare(rt: &impl Abort, receipts: &[Receipt]) {
    assert_eq!(rt; receipts.len(), 10_080);
    for (receipt, i) in receipts.iter().zip(0..4 * TURNS) {
        let actor = i / TURNS;
        let turn = i % TURNS;
        let role = actor.wrapping_sub(turn) % 4;
        assert_eq!(rt; told(receipt), told_in(role, turn), "receipt {i}");
    }
}

/// After the turns: a store by the actor that has all receipts, and one by its child, which knows
/// the words and loads none.
fn go_on(rt: &impl Abort, alloc: Global, core: &mut Core)
    requires { 3 < length core.old.actors }
    ensures { length core.new.actors ≡ length core.old.actors }
{
    let store = access(2, Want::Store);
    let again = look(2, store);
    let lines = [
        (0, again, None),
        (0, Step::LoadData { second: false }, None),
        (0, Step::LoadData { second: true }, None),
        (0, Step::Mark, None),
        (0, Step::Split { to: 3 }, None),
        (3, again, None),
        (3, again, None),
    ];
    play(rt, alloc, core, 0, &lines);
    let last = core.receipts(0).last().map(told);
    assert_eq!(rt; last, Some((2, state_before(2522), store, Answer::At)));
    assert_eq!(rt; core.receipts(0).len(), 10_081);
    let first = core.receipts(3).first().map(told);
    assert_eq!(rt; first, Some((2, state_stored(2522), store, Answer::At)));
    assert_eq!(rt; core.receipts(3).len(), 1);
}

/// Four actors make a receipt in each turn, and one of them gets all of them by joins.
#[test]
fn four_actors_on_three_entries(rt: HostRuntime) -> Result<(), Fail> {
    let mut core = machine(rt.alloc())?;
    let splits = [
        (0, Step::Split { to: 1 }, None),
        (0, Step::Split { to: 2 }, None),
        (2, Step::Split { to: 3 }, None),
    ];
    play(&rt, rt.alloc(), &mut core, 0, &splits);
    take_turns(&rt, rt.alloc(), &mut core);
    for actor in 0..4 {
        assert_eq!(rt; core.receipts(actor).len(), 2520);
    }
    let joins = [
        (0, Step::Join { from: 1 }, None),
        (0, Step::Join { from: 2 }, None),
        (0, Step::Join { from: 3 }, None),
    ];
    play(&rt, rt.alloc(), &mut core, 0, &joins);
    compare(&rt, core.receipts(0));
    go_on(&rt, rt.alloc(), &mut core);
    Ok(())
}
