//! Lists of steps on one entry: each step with what it is answered, and then the receipts of both
//! actors and the entry's state.

ghost use Rattle.std.specs.Prelude.{◌≡◌, length, IfOk};

mod four_actors;

use authority_mask::Masks;
use entry_model::{Answer, EntryState, Op, Receipt, Test};
use lock_core::{CoreError, Step};
use lock_machine::Core;
use std::alloc::Global;
use std::process::Abort;
use std::test::Fail;
use storage_prot::Want;

/// An actor, a step, and the refusal, where the step isn't taken.
type Line = (u32, Step, Option<CoreError>);

/// A receipt in short: the stamp, R and C before, and the answer.
type Told = (u32, bool, bool, Answer);

/// An entry with its page at 0x3000, M set and protection bits 2.
fn entry(referenced: bool, changed: bool, stamp: u32) -> EntryState {
    EntryState {
        valid: true,
        dword0: 0x1001,
        dword1: 0x3012,
        referenced,
        changed,
        stamp,
    }
}

/// An access by the entry's page.
fn access(want: Want) -> Op {
    Op::Access {
        tag: 0x1001,
        base: 12,
        key: false,
        no_execute: false,
        want,
        masks: Masks::default(),
    }
}

/// A removal without a test.
fn removal() -> Op {
    Op::Remove {
        test: Test {
            avpn: None,
            andcond: None,
        },
    }
}

fn lock(op: Op) -> Step {
    Step::Lock { entry: 0, op }
}

fn look(op: Op) -> Step {
    Step::Look { entry: 0, op }
}

/// The machine of the entry at stamp 1 with two actors.
fn machine(alloc: Global) -> Result<Core, &'static str>
    ensures entries { IfOk result (λ core. length core.entries ≡ 1) }
    ensures actors { IfOk result (λ core. length core.actors ≡ 2) }
{
    match Core::new(alloc, &[entry(false, false, 1)], 2) {
        Ok(core) => Ok(core),
        Err(_) => Err("no machine"),
    }
}

/// Takes the steps in their order, and compares what each is answered.
fn play(rt: &impl Abort, alloc: Global, core: &mut Core, lines: &[Line])
    ensures entries { length core.new.entries ≡ length core.old.entries }
    ensures actors { length core.new.actors ≡ length core.old.actors }
{
    for (actor, step, refusal) in lines {
        let answer = core.step(alloc, *actor, *step);
        assert_eq!(rt; answer.err(), *refusal);
    }
}

fn is_told(receipts: &[Receipt], wanted: &[Told]) -> bool {
    let mut same = receipts.len() == wanted.len();
    for (receipt, told) in receipts.iter().zip(wanted.iter()) {
        let before = receipt.before;
        same = same
            && (
                before.stamp,
                before.referenced,
                before.changed,
                receipt.answer,
            ) == *told;
    }
    same
}

/// An access that marks between lock and shut: its store is kept, and the removal's receipt has its
/// bits.
#[test]
fn a_store_between_lock_and_shut_is_kept(rt: HostRuntime) -> Result<(), Fail> {
    let mut core = machine(rt.alloc())?;
    let store = access(Want::Store);
    let lines = [
        (0, Step::Mark, Some(CoreError::Phase)),
        (0, Step::Split { to: 1 }, None),
        (0, lock(removal()), None),
        (1, look(store), None),
        (1, Step::LoadData { second: false }, None),
        (1, Step::LoadData { second: true }, None),
        (1, Step::Mark, None),
        (0, Step::LoadData { second: false }, None),
        (0, Step::LoadData { second: true }, None),
        (0, Step::Shut, None),
    ];
    play(&rt, rt.alloc(), &mut core, &lines);
    assert_eq!(rt; core.state(0), entry(true, true, 1));
    play(&rt, rt.alloc(), &mut core, &[(0, Step::Settle, None)]);
    assert!(rt; is_told(core.receipts(0), &[(1, true, true, Answer::Removed)]));
    assert!(rt; is_told(core.receipts(1), &[(1, false, false, Answer::At)]));
    assert_eq!(rt; core.state(0), EntryState::empty(2));
    Ok(())
}

/// The same with the look before the lock: the mark finds the lock bit, and the access makes no
/// receipt.
#[test]
fn a_look_before_the_lock_gives_no_receipt(rt: HostRuntime) -> Result<(), Fail> {
    let mut core = machine(rt.alloc())?;
    let store = access(Want::Store);
    let lines = [
        (0, Step::Split { to: 1 }, None),
        (1, look(store), None),
        (0, lock(removal()), None),
        (1, Step::LoadData { second: false }, None),
        (1, Step::LoadData { second: true }, None),
        (1, Step::Mark, None),
        (0, Step::LoadData { second: false }, None),
        (0, Step::LoadData { second: true }, None),
        (0, Step::Shut, None),
        (0, Step::Settle, None),
    ];
    play(&rt, rt.alloc(), &mut core, &lines);
    assert!(rt; is_told(core.receipts(0), &[(1, false, false, Answer::Removed)]));
    assert!(rt; is_told(core.receipts(1), &[]));
    assert_eq!(rt; core.state(0), EntryState::empty(2));
    Ok(())
}

/// C is cleared while a store marks between lock and shut: the receipt of the clearing has the bit,
/// and R stays.
#[test]
fn a_bit_raised_between_lock_and_shut_is_told(rt: HostRuntime) -> Result<(), Fail> {
    let mut core = machine(rt.alloc())?;
    let store = access(Want::Store);
    let lines = [
        (0, Step::Split { to: 1 }, None),
        (0, lock(Op::ClearMod), None),
        (0, Step::LoadData { second: false }, None),
        (0, Step::LoadData { second: true }, None),
        (1, look(store), None),
        (1, Step::Mark, None),
        (0, Step::Release, Some(CoreError::Phase)),
        (0, Step::Shut, None),
        (1, look(store), None),
        (1, Step::Mark, Some(CoreError::Phase)),
        (0, Step::StoreData { second: true }, None),
        (0, Step::Settle, None),
    ];
    play(&rt, rt.alloc(), &mut core, &lines);
    assert!(rt; is_told(core.receipts(0), &[(1, true, true, Answer::Was)]));
    assert!(rt; is_told(core.receipts(1), &[(1, false, false, Answer::At)]));
    assert_eq!(rt; core.state(0), entry(true, false, 2));
    Ok(())
}

/// A removal and a new entry with the same words between look and mark: the stamp is another one,
/// and the access makes no receipt.
#[test]
fn another_entry_at_the_mark(rt: HostRuntime) -> Result<(), Fail> {
    let mut core = machine(rt.alloc())?;
    let enter = Op::Enter {
        dword0: 0x2001,
        dword1: 0x5012,
    };
    let lines = [
        (0, Step::Split { to: 1 }, None),
        (1, look(access(Want::Load)), None),
        (0, lock(removal()), None),
        (0, Step::Shut, Some(CoreError::Phase)),
        (0, Step::LoadData { second: false }, None),
        (0, Step::LoadData { second: true }, None),
        (0, Step::Shut, None),
        (0, Step::Settle, None),
        (0, lock(enter), None),
        (0, Step::LoadData { second: false }, Some(CoreError::Phase)),
        (0, Step::Shut, None),
        (0, Step::StoreData { second: false }, None),
        (0, Step::Settle, Some(CoreError::Phase)),
        (0, Step::StoreData { second: true }, None),
        (0, Step::Settle, None),
        (1, Step::Mark, None),
    ];
    play(&rt, rt.alloc(), &mut core, &lines);
    let told = [
        (1, false, false, Answer::Removed),
        (2, false, false, Answer::Entered),
    ];
    assert!(rt; is_told(core.receipts(0), &told));
    assert!(rt; is_told(core.receipts(1), &[]));
    assert_eq!(rt; core.state(0).words(), (0x2001, 0x5012));
    Ok(())
}

/// Two readers and a writer: the readers' words are those of before, the second lock finds the
/// entry taken, and a join brings the receipts of the other actor after those that are there.
#[test]
fn two_readers_and_a_writer(rt: HostRuntime) -> Result<(), Fail> {
    let mut core = machine(rt.alloc())?;
    let load = access(Want::Load);
    let lines = [
        (0, Step::Split { to: 1 }, None),
        (0, Step::Split { to: 1 }, Some(CoreError::Actor)),
        (
            0,
            Step::Lock {
                entry: 1,
                op: Op::Read,
            },
            Some(CoreError::Entry),
        ),
        (0, lock(Op::Read), None),
        (1, lock(Op::Read), None),
        (1, Step::LoadData { second: false }, Some(CoreError::Phase)),
        (0, Step::LoadData { second: false }, None),
        (0, Step::LoadData { second: true }, None),
        (1, look(load), None),
        (1, Step::Mark, None),
        (0, Step::Join { from: 1 }, Some(CoreError::Phase)),
        (0, Step::Release, None),
        (1, look(load), None),
        (0, look(access(Want::Store)), None),
        (0, Step::Mark, None),
        (1, look(load), None),
        (0, Step::Join { from: 0 }, Some(CoreError::Actor)),
        (0, Step::Join { from: 1 }, None),
        (1, Step::Release, Some(CoreError::Actor)),
    ];
    play(&rt, rt.alloc(), &mut core, &lines);
    let told = [
        (1, true, false, Answer::Words),
        (1, true, false, Answer::At),
        (1, false, false, Answer::At),
        (1, true, true, Answer::At),
    ];
    assert!(rt; is_told(core.receipts(0), &told));
    assert!(rt; is_told(core.receipts(1), &[]));
    assert_eq!(rt; core.state(0), entry(true, true, 1));
    Ok(())
}

/// There may be 1 to 64 actors.
#[test]
fn the_number_of_actors(rt: HostRuntime) -> Result<(), Fail> {
    let states = [entry(false, false, 1)];
    assert_eq!(rt;
        Core::new(rt.alloc(), &states, 0).err(),
        Some(CoreError::Actors)
    );
    assert_eq!(rt;
        Core::new(rt.alloc(), &states, 65).err(),
        Some(CoreError::Actors)
    );
    assert!(rt; Core::new(rt.alloc(), &states, 64).is_ok());
    Ok(())
}
