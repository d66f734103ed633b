//! The callers of this crate, each on a small example.
ghost use Rattle.std.specs.Prelude.{◌≡◌, ◌≤◌, ◌<◌, ◌+◌, ◌-◌, ◌^◌, false, replicate, vec_len, IfOk, IsTrue};
ghost use Rattle.hpte_fields.specs.TableSize.{entry_count, least_order};
ghost use Rattle.entry_model.specs.State.{empty_state};
ghost use Rattle.entry_model.specs.Run.{state_at};
ghost use Rattle.trace_read.specs.Configuration.{greatest_trace_order};

use super::{STORAGE, empty_table};
use crate::*;
use entry_model::{EntryState, Line, Op, Outcome};
use frame_grants::{GrantError, Grants, Kind};
use hpt_pool::Pool;
use hpte_fields::normal;
use lock_core::Step;
use papr_codes::Hcall;
use papr_table::PlainTable;
use papr_top::Status;
use power_addr::Page;
use slb_model::Slb;
use std::alloc::{AllocError, Global};
use std::test::Fail;
use tlb_model::Tlb;
use trace_io::SteadySink;

/// Order 18, 1 GB of main storage, and one H_ENTER.
const TRACE: &[u8] =
    b"order 18\nram 0x0 0x2000000000 0x40000000\nbegin\n0 H_ENTER 0x0 0x20 0x1001 0x3012\n";

const REPLY: &str = "4 0 H_ENTER 0 0x20 | 0x20.0.0.entered\n";

/// A drill of no line: each processor makes its segment.
const SEGMENTS: &str = "1 0 slbmte ok\n2 1 slbmte ok\n3 2 slbmte ok\n4 3 slbmte ok\n";

#[test]
fn codes_and_pages(rt: HostRuntime) {
    assert_eq!(rt; number_again(0x124), 0x124);
    assert_eq!(rt; number_again(5), 5);
    assert_eq!(rt; call_again(Hcall::Commit), Hcall::Commit);
    assert_eq!(rt; group_of_entry(18, 0x23, 0x1001, 0x3012), Some(4));
    assert_eq!(rt;
        group_of_entry(18, 0x23, 0x1000, 0x3012),
        None,
        "V is clear"
    );
}

#[test]
fn blocks(rt: HostRuntime) -> Result<(), Fail> {
    let mut pool = Pool::new(rt.alloc(), 0x10_0000_0000, 20)?;
    assert_eq!(rt; take_and_give(&mut pool, 19), Some(0x10_0000_0000));
    let pair = take_pair(&mut pool, 18, 19);
    assert_eq!(rt; pair, Some((0x10_0000_0000, 0x10_0008_0000)));
    assert_eq!(rt; take_pair(&mut pool, 18, 18), None);
    assert_eq!(rt; take_and_give(&mut pool, 18), Some(0x10_0004_0000));
    Ok(())
}

/// The states of a new table's entries.
fn new_states(alloc: Global, order: u8) -> Result<Vec<EntryState>, AllocError>
    requires low { least_order ≤ order }
    requires high { order ≤ greatest_trace_order }
    ensures empty { IfOk result
        (λ states. states.items ≡ replicate (entry_count order) (empty_state 0)) }
    ensures whole { IfOk result (λ states. vec_len states ≡ entry_count order) }
{
    vec![in alloc; EntryState::empty(0); 1 << (order - 4)]
}

/// The entry of a page in a new table.
fn entry_in_new_table(alloc: Global, order: u8) -> Result<Option<u32>, Fail>
    requires low { least_order ≤ order }
    requires high { order ≤ greatest_trace_order }
{
    let page = Page::new(false, 1, 12, 5).ok_or("no page")?;
    let states = new_states(alloc, order)?;
    let mut table = PlainTable::open(states, order);
    Ok(entry_of_page(&mut table, &page))
}

/// Whether an entry of the table is empty, and may change.
fn is_fresh(table: &PlainTable, entry: u32) -> bool
    requires { entry < entry_count table.now.order }
    ensures empty { IsTrue result → (state_at table.now.states entry).valid ≡ false }
    ensures low { IsTrue result → (state_at table.now.states entry).stamp + 1 < 2 ^ 32 - 1 }
{
    let state = table.state(entry);
    !state.valid && state.stamp < 9
}

#[test]
fn entries(rt: HostRuntime) -> Result<(), Fail> {
    let (dword0, dword1) = normal(0x1001, 0x3192).ok_or("no words of an entry")?;
    let mut table = empty_table(rt.alloc())?;
    assert!(rt; is_fresh(&table, 0x20));
    let reply = enter_and_remove(&mut table, 0x20, dword0, dword1);
    assert_eq!(rt; reply.words.as_slice(), [0x1001, 0x3192].as_slice());
    assert!(rt; is_fresh(&table, 0x20));
    let reply = enter_and_read(&mut table, 0x20, dword0, dword1);
    assert_eq!(rt; reply.words.as_slice(), [0x1001, 0x3192].as_slice());
    assert_eq!(rt; table.state(0x20).stamp, 3);
    assert_eq!(rt; entry_in_new_table(rt.alloc(), 18)?, None);
    Ok(())
}

#[test]
fn texts(rt: HostRuntime) -> Result<(), Fail> {
    let text = text_of_bytes(rt.alloc(), TRACE).ok().ok_or("refused")?;
    assert_eq!(rt; text.as_str(), REPLY);
    assert!(rt; text_of_bytes(rt.alloc(), b"begin\nbegin\n").is_err());
    let text = text_of_seed(rt.alloc(), 7, 0)?;
    assert_eq!(rt; text.as_str(), SEGMENTS);
    Ok(())
}

#[test]
fn programs(rt: HostRuntime) -> Result<(), Fail> {
    let alloc = rt.alloc();
    let empty: &[u8] = b"";
    for (input, status, text) in [
        (TRACE, Status::Done, REPLY),
        (empty, Status::Refused, "papr: line 1: begin\n"),
    ] {
        let mut sink = SteadySink::new(alloc, 7, 4096)?;
        assert_eq!(rt; run_program(alloc, input.to_vec(alloc)?, &mut sink), status);
        assert_eq!(rt; sink.taken(), text.as_bytes());
    }
    Ok(())
}

#[test]
fn promises(rt: HostRuntime) -> Result<(), Fail> {
    let alloc = rt.alloc();
    let mut sink = SteadySink::new(alloc, 7, 4096)?;
    let by_threads = keep_promise::<Stores, _>(&rt, alloc, TRACE.to_vec(alloc)?, &mut sink);
    let serially = no_put_is_busy(alloc, TRACE.to_vec(alloc)?, &mut sink);
    assert_eq!(rt; (by_threads, serially), (Status::Done, Status::Done));
    let twice = format!(in alloc; "{REPLY}{REPLY}")?;
    assert_eq!(rt; sink.taken(), twice.as_bytes());
    Ok(())
}

#[test]
fn steps(rt: HostRuntime) -> Result<(), Fail> {
    let lock = Step::Lock {
        entry: 0,
        op: Op::Read,
    };
    // Actor 1 is not live, and a lock that is held is not taken twice.
    let steps = [(0, lock), (1, lock), (0, lock), (0, Step::Release)];
    let states = [EntryState::empty(3)];
    let core = machine_after(rt.alloc(), &states, 2, &steps)
        .ok()
        .ok_or("no machine")?;
    assert_eq!(rt; core.receipts(0).len(), 1);
    assert_eq!(rt; core.receipts(1).len(), 0);
    assert_eq!(rt; core.state(0).stamp, 3);
    Ok(())
}

#[test]
fn segments_and_accesses(rt: HostRuntime) -> Result<(), Fail> {
    let mut slb = Slb::new();
    let found = only_segment(&mut slb, 0x0800_0000, 0x1000, 0x5000);
    assert!(rt; matches!(found, Ok(Some(_))));
    let found = only_segment(&mut slb, 0x0800_0000, 0x1000, 0x1000_5000);
    assert!(rt; matches!(found, Ok(None)));
    let mut grants = Grants::new(0x10_0000_0000, 20);
    let place = grant_and_ask(&mut grants, STORAGE, 0x5123)?;
    assert_eq!(rt; place, Some((0x20_0000_5123, Kind::Ram)));
    assert_eq!(rt;
        grant_and_ask(&mut grants, STORAGE, 0),
        Err(GrantError::Overlap)
    );
    let mut table = empty_table(rt.alloc())?;
    let reply = first_access(&mut table, &grants, 0x5000);
    assert_eq!(rt; reply.outcome, Outcome::NoSegment);
    let line = Line::default();
    assert_eq!(rt; fill_and_drop(&mut Tlb::new(), line), Some(line));
    Ok(())
}
