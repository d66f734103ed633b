//! Single entries under each operation: their answers and next states, and the lists of receipts
//! and of words.
ghost use Rattle.std.specs.Prelude.{◌≡◌, bit_and};

use authority_mask::Masks;
use entry_model::*;
use power_addr::Page;
use std::process::Abort;
use storage_prot::Want;

/// A valid entry: bolted, its page at 0x3000, M and N set, protection bits 2.
fn entry(referenced: bool, changed: bool, stamp: u32) -> EntryState {
    EntryState {
        valid: true,
        dword0: 0x1011,
        dword1: 0x3016,
        referenced,
        changed,
        stamp,
    }
}

/// The state answers so, and is this one then.
fn expect(rt: &impl Abort, before: &EntryState, op: Op, answer: Answer, after: &EntryState) {
    let (told, next) = reply(before, &op);
    assert_eq!(rt; told, answer);
    assert_eq!(rt; next, *after);
}

#[test]
fn entering(rt: HostRuntime) {
    let op = Op::Enter {
        dword0: 0x1011,
        dword1: 0x3196,
    };
    let empty = EntryState::empty(6);
    expect(&rt, &empty, op, Answer::Entered, &entry(true, true, 7));
    let full = entry(false, true, 7);
    expect(&rt, &full, op, Answer::Taken, &full);
    let worn = EntryState::empty(u32::MAX);
    expect(&rt, &worn, op, Answer::Worn, &worn);
    let full_and_worn = entry(true, false, u32::MAX);
    expect(&rt, &full_and_worn, op, Answer::Taken, &full_and_worn);
    let changed_only = Op::Enter {
        dword0: 0x1011,
        dword1: 0x3096,
    };
    expect(
        &rt,
        &empty,
        changed_only,
        Answer::Entered,
        &entry(false, true, 7),
    );
}

#[test]
fn removing_by_a_test(rt: HostRuntime) {
    let full = entry(true, true, 4);
    // The page number and what may not be set, and whether the entry passes.
    let rows = [
        (None, None, true),
        (Some(0x1000), None, true),
        (Some(0x1011), None, false),
        (Some(0x1080), None, false),
        (None, Some(0x68), true),
        (None, Some(0x78), false),
        (Some(0x1000), Some(0x68), true),
        (Some(0x1000), Some(0x10), false),
        (Some(0), Some(0x68), false),
    ];
    for (avpn, andcond, passes) in rows {
        let op = Op::Remove {
            test: Test { avpn, andcond },
        };
        if passes {
            expect(&rt, &full, op, Answer::Removed, &EntryState::empty(5));
        } else {
            expect(&rt, &full, op, Answer::NotFound, &full);
        }
        let empty = EntryState::empty(9);
        expect(&rt, &empty, op, Answer::NotFound, &empty);
    }
}

#[test]
fn protecting(rt: HostRuntime) {
    let test = Test {
        avpn: None,
        andcond: Some(0x10),
    };
    let full = entry(true, true, 4);
    let flags = 0x3B05;
    expect(
        &rt,
        &full,
        Op::Protect { test, flags },
        Answer::NotFound,
        &full,
    );
    let test = Test {
        avpn: Some(0x1000),
        andcond: None,
    };
    // PP0, key high 3, key low 5, N and PP 1; M and the page stay, and so do R and C.
    let next = EntryState {
        valid: true,
        dword0: 0x1011,
        dword1: 0xB000_0000_0000_3A15,
        referenced: true,
        changed: true,
        stamp: 5,
    };
    expect(
        &rt,
        &full,
        Op::Protect { test, flags },
        Answer::Protected,
        &next,
    );
}

#[test]
fn reading_and_clearing(rt: HostRuntime) {
    let full = entry(true, true, 4);
    let empty = EntryState::empty(9);
    expect(&rt, &full, Op::Read, Answer::Words, &full);
    expect(&rt, &empty, Op::Read, Answer::Words, &empty);
    expect(
        &rt,
        &full,
        Op::ClearRef,
        Answer::Was,
        &entry(false, true, 5),
    );
    expect(
        &rt,
        &full,
        Op::ClearMod,
        Answer::Was,
        &entry(true, false, 5),
    );
    let clear = entry(false, false, 4);
    expect(
        &rt,
        &clear,
        Op::ClearRef,
        Answer::Was,
        &entry(false, false, 5),
    );
    expect(&rt, &empty, Op::ClearRef, Answer::NotFound, &empty);
    expect(&rt, &empty, Op::ClearMod, Answer::NotFound, &empty);
    let worn = entry(true, true, u32::MAX);
    expect(&rt, &worn, Op::ClearMod, Answer::Worn, &worn);
}

/// A valid entry without R and C, at stamp 4.
fn translating(dword0: u64, dword1: u64) -> EntryState
    requires { bit_and dword1 0x180 ≡ 0 }
{
    EntryState {
        valid: true,
        dword0,
        dword1,
        referenced: false,
        changed: false,
        stamp: 4,
    }
}

fn access(tag: u64, base: u8, key: bool, no_execute: bool, want: Want) -> Op {
    Op::Access {
        tag,
        base,
        key,
        no_execute,
        want,
        masks: Masks::default(),
    }
}

/// The answer to an access, and R, C and the stamp then.
fn told(before: &EntryState, op: Op) -> (Answer, bool, bool, u32) {
    let (answer, after) = reply(before, &op);
    (answer, after.referenced, after.changed, after.stamp)
}

const NO_MATCH: (Answer, bool, bool, u32) = (Answer::NoMatch, false, false, 4);

const DENIED: (Answer, bool, bool, u32) = (Answer::Denied, false, false, 4);

const LOADED: (Answer, bool, bool, u32) = (Answer::At, true, false, 4);

const STORED: (Answer, bool, bool, u32) = (Answer::At, true, true, 4);

#[test]
fn accesses_find_their_entry(rt: HostRuntime) {
    // A page of 64 KB in its secondary group, bolted.
    let large = translating(0x1017, 0x5_1012);
    let rows = [
        (0x1003, 16, LOADED),
        (0x1001, 16, NO_MATCH),
        (0x1002, 16, NO_MATCH),
        (0x1083, 16, NO_MATCH),
        (0x1003, 12, NO_MATCH),
        (0x1003, 24, NO_MATCH),
    ];
    for (tag, base, answer) in rows {
        let op = access(tag, base, false, false, Want::Load);
        assert_eq!(rt; told(&large, op), answer);
    }
    let op = access(0, 12, false, false, Want::Load);
    assert_eq!(rt; told(&EntryState::empty(4), op), NO_MATCH);
    // L is set, and the low digits of the page number encode no size.
    let op = access(0x1003, 16, false, false, Want::Load);
    assert_eq!(rt; told(&translating(0x1007, 0x2012), op), NO_MATCH);
}

#[test]
fn accesses_by_protection(rt: HostRuntime) {
    let rows = [
        // Key 0 and key 1 write.
        (0x3012, true, false, Want::Load, LOADED),
        (0x3012, true, false, Want::Store, STORED),
        (0x3012, false, false, Want::Fetch, LOADED),
        // The segment, N and G refuse fetches.
        (0x3012, false, true, Want::Fetch, DENIED),
        (0x3012, false, true, Want::Load, LOADED),
        (0x3016, false, false, Want::Fetch, DENIED),
        (0x301A, false, false, Want::Fetch, DENIED),
        (0x301A, false, false, Want::Store, STORED),
        // Read-only; PP0 set: key 0 reads.
        (0x3013, false, false, Want::Store, DENIED),
        (0x8000_0000_0000_3012, false, false, Want::Load, LOADED),
        (0x8000_0000_0000_3012, true, false, Want::Load, DENIED),
    ];
    for (dword1, key, no_execute, want, answer) in rows {
        if dword1 & 0x180 == 0 {
            let op = access(0x1001, 12, key, no_execute, want);
            assert_eq!(rt; told(&translating(0x1001, dword1), op), answer);
        }
    }
}

#[test]
fn accesses_keep_bits_and_the_last_stamp(rt: HostRuntime) {
    let op = access(0x1001, 12, false, false, Want::Load);
    let worn = entry(false, true, u32::MAX);
    expect(&rt, &worn, op, Answer::At, &entry(true, true, u32::MAX));
    let line = Line::default();
    assert_eq!(rt;
        (line.entry, line.stamp, line.page),
        (0, 0, Page::default())
    );
}

#[test]
fn words_have_r_and_c(rt: HostRuntime) {
    assert_eq!(rt; entry(true, true, 4).words(), (0x1011, 0x3196));
    assert_eq!(rt; entry(true, false, 4).words(), (0x1011, 0x3116));
    assert_eq!(rt; entry(false, true, 4).words(), (0x1011, 0x3096));
    assert_eq!(rt; EntryState::empty(4).words(), (0, 0));
}

#[test]
fn lists_keep_what_is_pushed(rt: HostRuntime) {
    let before = entry(true, true, 4);
    let op = Op::ClearMod;
    let (answer, next) = reply(&before, &op);
    let receipt = Receipt {
        entry: 0x25,
        before,
        op,
        answer,
    };
    assert_eq!(rt; receipt.after(), next);
    let mut receipts = Receipts::new();
    receipts.push(Receipt::default());
    receipts.push(receipt);
    let entries = receipts.as_slice();
    assert_eq!(rt; entries.len(), 2);
    assert_eq!(rt; (entries[0].entry, entries[1].entry), (0, 0x25));
    let mut words = ReplyWords::new();
    words.push(7);
    words.push(5);
    assert_eq!(rt; words.as_slice(), [7, 5].as_slice());
}
