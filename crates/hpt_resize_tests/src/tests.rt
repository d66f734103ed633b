//! Rehashes into larger and smaller tables, and what prepares and commits answer and take of a
//! small pool.
ghost use Rattle.std.specs.Prelude.{◌≡◌, ◌≤◌, bit_and, length, replicate, vec_len, IfOk};
ghost use Rattle.entry_model.specs.State.{empty_state};
ghost use Rattle.hpte_fields.specs.TableSize.{entry_count, IsTableOrder};
ghost use Rattle.hpt_resize.specs.Resize.{IsHeld};

use entry_model::EntryState;
use hpt_pool::Pool;
use hpt_resize::{Collision, CommitAnswer, Current, Resize, rehash};
use papr_codes::Rc;
use std::alloc::{AllocError, Global};
use std::test::Fail;

fn entry(dword0: u64, dword1: u64) -> EntryState
    requires { bit_and dword1 0x180 ≡ 0 }
{
    EntryState {
        valid: true,
        dword0,
        dword1,
        referenced: true,
        changed: true,
        stamp: 7,
    }
}

fn empty_table(alloc: Global, order: u8) -> Result<Vec<EntryState>, AllocError>
    requires order { IsTableOrder order }
    ensures empty { IfOk result
        (λ states. states.items ≡ replicate (entry_count order) (empty_state 0)) }
    ensures long { IfOk result (λ states. vec_len states ≡ entry_count order) }
{
    vec![in alloc; EntryState::empty(0); 1 << (order - 4)]
}

/// What the rehash answers, and the new table.
fn carried(
    alloc: Global,
    from: u8,
    to: u8,
    states: &[EntryState],
) -> Result<(Result<(), Collision>, Vec<EntryState>), AllocError>
    requires from { IsTableOrder from }
    requires to { IsTableOrder to }
    requires whole { length states.now ≡ entry_count from }
    ensures { IfOk result (λ answer. vec_len answer.1 ≡ entry_count to) }
{
    let mut into = empty_table(alloc, to)?;
    let answer = rehash(from, to, states, &mut into);
    Ok((answer, into))
}

#[test]
fn bolted_entries_of_a_page_are_carried(rt: HostRuntime) -> Result<(), Fail> {
    let mut states = empty_table(rt.alloc(), 18)?;
    // the page of VSID 0x801 and index 5: group 0x804 of 0x1000, and 4 of 0x800
    states[0x20] = entry(0x80_1011, 0x3012);
    // bolted, and not in the group of its page
    states[0x400] = entry(0x1015, 0x1_1012);
    // not bolted
    states[0x21] = entry(0x1001, 0x4012);
    let (answer, into) = carried(rt.alloc(), 18, 19, &states)?;
    assert_eq!(rt; answer, Ok(()));
    let new = into[0x4020];
    assert_eq!(rt; new.words(), (0x80_1011, 0x3192));
    assert_eq!(rt; new.stamp, 0);
    assert_eq!(rt; into.iter().filter(|state| state.valid).count(), 1);
    Ok(())
}

#[test]
fn two_entries_meet_in_a_smaller_table(rt: HostRuntime) -> Result<(), Fail> {
    let mut states = empty_table(rt.alloc(), 19)?;
    states[0x20] = entry(0x1011, 0x4012);
    states[0x4020] = entry(0x80_1011, 0x3012);
    let (answer, _into) = carried(rt.alloc(), 19, 18, &states)?;
    let meet = Collision {
        first: 0x20,
        second: 0x4020,
        target: 0x20,
    };
    assert_eq!(rt; answer, Err(meet));
    Ok(())
}

#[test]
fn a_larger_table_is_prepared_and_committed(rt: HostRuntime) -> Result<(), Fail> {
    let mut pool = Pool::new(rt.alloc(), 0x10_0000_0000, 20)?;
    let Some(place) = pool.take(18) else {
        return Err("no block".into());
    };
    let mut states = empty_table(rt.alloc(), 18)?;
    states[0x20] = entry(0x80_1011, 0x3012);
    let mut current = Current {
        order: 18,
        place,
        number: 0,
        states,
    };
    let mut resize = Resize::none();
    assert_eq!(rt;
        resize.prepare(rt.alloc(), &mut pool, 20, 0, 19),
        Ok(Rc::LongBusy)
    );
    assert_eq!(rt;
        resize.prepare(rt.alloc(), &mut pool, 20, 0, 19),
        Ok(Rc::Success)
    );
    assert_eq!(rt;
        resize.commit(&mut pool, &mut current, 0, 19),
        CommitAnswer::of(Rc::Success)
    );
    assert_eq!(rt;
        (current.order, current.place, current.number),
        (19, 0x10_0008_0000, 1)
    );
    assert_eq!(rt;
        current.states.iter().filter(|state| state.valid).count(),
        1
    );
    assert_eq!(rt; pool.take(19), Some(0x10_0000_0000));
    Ok(())
}

#[test]
fn a_smaller_table_is_dropped_at_a_collision(rt: HostRuntime) -> Result<(), Fail> {
    let mut pool = Pool::new(rt.alloc(), 0x10_0000_0000, 20)?;
    let Some(place) = pool.take(19) else {
        return Err("no block".into());
    };
    let mut states = empty_table(rt.alloc(), 19)?;
    states[0x20] = entry(0x1011, 0x4012);
    states[0x4020] = entry(0x80_1011, 0x3012);
    let mut current = Current {
        order: 19,
        place,
        number: 1,
        states,
    };
    let mut resize = Resize::none();
    assert_eq!(rt;
        resize.prepare(rt.alloc(), &mut pool, 20, 0, 18),
        Ok(Rc::Success)
    );
    let answer = resize.commit(&mut pool, &mut current, 0, 18);
    assert_eq!(rt; answer.rc, Rc::PtegFull);
    assert!(rt; answer.collision.is_some());
    assert_eq!(rt; current.number, 1);
    assert_eq!(rt; pool.take(19), Some(0x10_0008_0000));
    Ok(())
}

#[test]
fn what_prepare_answers(rt: HostRuntime) -> Result<(), Fail> {
    let mut pool = Pool::new(rt.alloc(), 0x10_0000_0000, 19)?;
    assert_eq!(rt; pool.take(18), Some(0x10_0000_0000));
    let mut resize = Resize::none();
    assert_eq!(rt;
        resize.prepare(rt.alloc(), &mut pool, 20, 1, 18),
        Ok(Rc::Parameter)
    );
    assert_eq!(rt;
        resize.prepare(rt.alloc(), &mut pool, 20, 0, 17),
        Ok(Rc::Parameter)
    );
    assert_eq!(rt;
        resize.prepare(rt.alloc(), &mut pool, 20, 0, 21),
        Ok(Rc::Resource)
    );
    assert_eq!(rt;
        resize.prepare(rt.alloc(), &mut pool, 20, 0, 19),
        Ok(Rc::NoMem)
    );
    assert_eq!(rt;
        resize.prepare(rt.alloc(), &mut pool, 20, 0, 18),
        Ok(Rc::Success)
    );
    assert_eq!(rt;
        resize.prepare(rt.alloc(), &mut pool, 20, 0, 0),
        Ok(Rc::Success)
    );
    assert_eq!(rt; pool.take(18), Some(0x10_0004_0000));
    Ok(())
}

/// The answers of the calls that make a table ready, up to the first that isn't a long wait: how
/// many waits, and that answer.
fn made_ready(
    alloc: Global,
    pool: &mut Pool,
    resize: &mut Resize,
    order: u64,
) -> Result<(u32, Rc), AllocError>
    requires { IsHeld resize.old pool.old }
    ensures { IsHeld resize.new pool.new }
{
    for waits in 0..100 {
        let rc = resize.prepare(alloc, pool, 22, 0, order)?;
        if rc != Rc::LongBusy {
            return Ok((waits, rc));
        }
    }
    Ok((100, Rc::LongBusy))
}

#[test]
fn larger_tables_are_made_ready_a_part_at_a_call(rt: HostRuntime) -> Result<(), Fail> {
    let mut pool = Pool::new(rt.alloc(), 0x10_0000_0000, 24)?;
    let mut resize = Resize::none();
    for (order, waits) in [(20, 3), (21, 7), (22, 15)] {
        let answers = made_ready(rt.alloc(), &mut pool, &mut resize, order)?;
        assert_eq!(rt; answers, (waits, Rc::Success), "at order {order}");
    }
    assert_eq!(rt; pool.take(23), Some(0x10_0080_0000));
    assert_eq!(rt; pool.take(22), Some(0x10_0040_0000));
    Ok(())
}
