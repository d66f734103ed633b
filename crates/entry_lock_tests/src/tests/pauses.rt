//! Interleavings at one entry, forced by a pause: while a pass holds the entry, another one makes
//! its tries.

ghost use Rattle.std.specs.Prelude.{◌≡◌};
ghost use Rattle.entry_lock.specs.PassOfTable.{IsOf};

use super::{ENTRY, access, open_table, page, remove};
use entry_lock::{Busy, JustLocked, LockTable, Pass, Pause};
use entry_model::{Answer, EntryState, Op, Receipt};
use std::alloc::{AllocError, Global};
use std::cell::RefCell;
use std::test::Fail;
use storage_prot::Want;

/// Another pass of the table, and what it tries while the entry is held.
#[derive(Drop)]
struct Visitor<'a> {
    table: &'a LockTable,
    pass: Pass,
    tries: &'a [(u32, Op)],
    made: Vec<Result<Receipt, Busy>>,
    ghost of: { IsOf table.now pass },
    ghost order: { table.now.order ≡ 18 },
}

impl Visitor<'_> {
    /// Tries all operations in turn.
    fn visit(&mut self) {
        for (entry, op) in self.tries {
            if *entry < 16384 {
                let answer = self.pass.try_apply(self.table, *entry, *op);
                let _ = self.made.push(answer);
            }
        }
    }
}

/// A pause in which the visitor makes its tries.
struct Visit<'a> {
    visitor: RefCell<Visitor<'a>>,
}

impl Pause for Visit<'_> {
    fn held(&self, _at: JustLocked) {
        if let Ok(mut visitor) = self.visitor.try_borrow_mut() {
            visitor.visit();
        }
    }
}

/// What the holder and the visitor were answered, and the entry's state afterwards.
#[derive(Drop)]
struct Told {
    holder: Result<Receipt, Busy>,
    visitor: Vec<Result<Receipt, Busy>>,
    after: EntryState,
}

/// An operation on the entry, and tries of another pass between its lock step and its next step.
fn run_beside(
    alloc: Global,
    state: EntryState,
    op: Op,
    tries: &[(u32, Op)],
) -> Result<Told, AllocError> {
    let (table, mut pass) = open_table(alloc, state, 2)?;
    let other = pass.split(&table);
    let visitor = Visitor {
        table: &table,
        pass: other,
        tries,
        made: Vec::new(alloc),
    };
    let pause = Visit {
        visitor: RefCell::new(visitor),
    };
    let holder = pass.try_with(&table, ENTRY, op, &pause);
    let Visit { visitor } = pause;
    let Visitor { made, .. } = visitor.into_inner();
    match pass.try_apply(&table, ENTRY, Op::Read) {
        Ok(read) => Ok(Told {
            holder,
            visitor: made,
            after: read.before,
        }),
        Err(_) => Err(AllocError),
    }
}

/// The state before and the answer.
fn answer_of(answer: &Result<Receipt, Busy>) -> Option<(EntryState, Answer)> {
    match answer {
        Ok(receipt) => Some((receipt.before, receipt.answer)),
        Err(_) => None,
    }
}

/// The answers of the visitor, in order.
fn answer_beside(ended: &Told, place: usize) -> Option<(EntryState, Answer)> {
    match ended.visitor.get(place) {
        Some(answer) => answer_of(answer),
        None => None,
    }
}

/// An access that marks between lock and shut: its store is kept, and the removal's receipt has its
/// bits.
#[test]
fn a_store_between_lock_and_shut_is_kept(rt: HostRuntime) -> Result<(), Fail> {
    let tries = [(ENTRY, access(Want::Store))];
    let ended = run_beside(rt.alloc(), page(false, false, 1), remove(), &tries)?;
    assert_eq!(rt;
        answer_beside(&ended, 0),
        Some((page(false, false, 1), Answer::At))
    );
    assert_eq!(rt;
        answer_of(&ended.holder),
        Some((page(true, true, 1), Answer::Removed))
    );
    assert_eq!(rt; ended.after, EntryState::empty(2));
    Ok(())
}

/// C is cleared while a store marks between lock and shut: the receipt of the clearing has the bit,
/// and R stays.
#[test]
fn a_bit_raised_between_lock_and_shut_is_told(rt: HostRuntime) -> Result<(), Fail> {
    let tries = [(ENTRY, access(Want::Store))];
    let ended = run_beside(rt.alloc(), page(false, false, 1), Op::ClearMod, &tries)?;
    assert_eq!(rt;
        answer_beside(&ended, 0),
        Some((page(false, false, 1), Answer::At))
    );
    assert_eq!(rt;
        answer_of(&ended.holder),
        Some((page(true, true, 1), Answer::Was))
    );
    assert_eq!(rt; ended.after, page(true, false, 2));
    Ok(())
}

/// Two readers and a writer: the second reader finds the entry taken, with the lock bit in the
/// word; the bits that a load and a store raise meanwhile are in the first reader's receipt, and
/// the next entry isn't busy.
#[test]
fn two_readers_and_a_writer(rt: HostRuntime) -> Result<(), Fail> {
    let tries = [
        (ENTRY, Op::Read),
        (ENTRY, access(Want::Load)),
        (ENTRY + 1, Op::Read),
        (ENTRY, access(Want::Store)),
    ];
    let ended = run_beside(rt.alloc(), page(false, false, 1), Op::Read, &tries)?;
    let word = 1 << 63 | 1 << 61 | 1;
    let busy = Busy {
        entry: ENTRY,
        looked: word,
        found: word,
    };
    assert_eq!(rt;
        ended.visitor.get(0).and_then(|answer| answer.err()),
        Some(busy)
    );
    assert_eq!(rt;
        answer_beside(&ended, 1),
        Some((page(false, false, 1), Answer::At))
    );
    assert_eq!(rt;
        answer_beside(&ended, 2),
        Some((EntryState::empty(0), Answer::Words))
    );
    assert_eq!(rt;
        answer_beside(&ended, 3),
        Some((page(true, false, 1), Answer::At))
    );
    assert_eq!(rt;
        answer_of(&ended.holder),
        Some((page(true, true, 1), Answer::Words))
    );
    assert_eq!(rt; ended.after, page(true, true, 1));
    Ok(())
}
