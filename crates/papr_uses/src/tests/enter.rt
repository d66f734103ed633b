//! H_ENTER on small tables: the slots of a group in their order, the words that are refused, and
//! entries at their last stamp.
use super::{STORAGE, Wanted, empty_table, expect, table_with};
use entry_model::{Answer, EntryState};
use frame_grants::{Grant, GrantError, Grants, Kind};
use h_enter::{enter_words, h_enter};
use papr_codes::Rc;
use std::test::Fail;

/// H_EXACT.
const EXACT: u64 = 0x80_0000_0000;

/// All of the page of 64 KB at 0x10000 but its last 4 KB, and those.
const SHORT: Grant = Grant {
    logical: 0,
    machine: 0x20_0000_0000,
    length: 0x1F000,
    kind: Kind::Ram,
};

const REST: Grant = Grant {
    logical: 0x1F000,
    machine: 0x20_0001_F000,
    length: 0x1000,
    kind: Kind::Ram,
};

/// The registers of a device.
const DEVICE: Grant = Grant {
    logical: 0x4000_0000,
    machine: 0x30_0000_0000,
    length: 0x10000,
    kind: Kind::Io,
};

/// An H_ENTER under these grants, and its reply.
struct Row {
    name: &'static str,
    grants: &'static [Grant],
    flags: u64,
    ptex: u64,
    words: (u64, u64),
    wanted: Wanted,
}

/// The reply of an H_ENTER that is refused before an entry is tried.
const REFUSED: Wanted = Wanted {
    rc: Rc::Parameter,
    words: &[],
    receipts: &[],
};

/// The replies of an H_ENTER that takes one of these entries.
const AT_20: Wanted = Wanted {
    rc: Rc::Success,
    words: &[0x20],
    receipts: &[(0x20, 0, Answer::Entered)],
};

const AT_27: Wanted = Wanted {
    rc: Rc::Success,
    words: &[0x27],
    receipts: &[(0x27, 0, Answer::Entered)],
};

const AT_3FFF: Wanted = Wanted {
    rc: Rc::Success,
    words: &[0x3FFF],
    receipts: &[(0x3FFF, 0, Answer::Entered)],
};

const AT_40: Wanted = Wanted {
    rc: Rc::Success,
    words: &[0x40],
    receipts: &[(0x40, 0, Answer::Entered)],
};

/// The reply where entry 0x27 is taken.
const TAKEN_27: Wanted = Wanted {
    rc: Rc::PtegFull,
    words: &[],
    receipts: &[(0x27, 1, Answer::Taken)],
};

/// Calls on one table, in turn.
const IN_TURN: &[Row] = &[
    Row {
        name: "the named entry, with the hypervisor's bits",
        grants: &[STORAGE],
        flags: EXACT,
        ptex: 0x27,
        words: (0x1060, 0x3012),
        wanted: AT_27,
    },
    Row {
        name: "the named entry once more",
        grants: &[STORAGE],
        flags: EXACT,
        ptex: 0x27,
        words: (0x1001, 0x3012),
        wanted: TAKEN_27,
    },
    Row {
        name: "the last entry",
        grants: &[STORAGE],
        flags: EXACT,
        ptex: 0x3FFF,
        words: (0x1001, 0x3012),
        wanted: AT_3FFF,
    },
    Row {
        name: "past the last entry",
        grants: &[STORAGE],
        flags: EXACT,
        ptex: 0x4000,
        words: (0x1001, 0x3012),
        wanted: REFUSED,
    },
    Row {
        name: "a grant that ends in the page",
        grants: &[SHORT],
        flags: 0,
        ptex: 0x20,
        words: (0x1005, 0x1_1012),
        wanted: REFUSED,
    },
    Row {
        name: "two grants that hold the page together",
        grants: &[SHORT, REST],
        flags: 0,
        ptex: 0x20,
        words: (0x1005, 0x1_1012),
        wanted: REFUSED,
    },
    Row {
        name: "a page that the grant holds",
        grants: &[SHORT],
        flags: 0,
        ptex: 0x20,
        words: (0x1005, 0x1012),
        wanted: AT_20,
    },
    Row {
        name: "no page size",
        grants: &[STORAGE],
        flags: 0,
        ptex: 0x40,
        words: (0x1005, 0x1_2012),
        wanted: REFUSED,
    },
    Row {
        name: "no segment size",
        grants: &[STORAGE],
        flags: 0,
        ptex: 0x40,
        words: (0x8000_0000_0000_1001, 0x3012),
        wanted: REFUSED,
    },
    Row {
        name: "words of a page",
        grants: &[STORAGE],
        flags: 0,
        ptex: 0x40,
        words: (0x1005, 0x1_1012),
        wanted: AT_40,
    },
];

/// Doubleword 1, and whether it is taken: no bit on storage; W, I and M there; W and M there; I on
/// a device; I and M there.
const CONTROL_BITS: &[(u64, Rc)] = &[
    (0x3002, Rc::Parameter),
    (0x3072, Rc::Success),
    (0x3052, Rc::Parameter),
    (0x4000_0022, Rc::Success),
    (0x4000_0032, Rc::Parameter),
];

/// The reply where all entries of the group of entry 0x20 are taken.
const FULL: Wanted = Wanted {
    rc: Rc::PtegFull,
    words: &[],
    receipts: &[
        (0x20, 1, Answer::Taken),
        (0x21, 1, Answer::Taken),
        (0x22, 1, Answer::Taken),
        (0x23, 1, Answer::Taken),
        (0x24, 1, Answer::Taken),
        (0x25, 1, Answer::Taken),
        (0x26, 1, Answer::Taken),
        (0x27, 1, Answer::Taken),
    ],
};

/// The reply where entry 0x20 is at its last stamp.
const WORN: Wanted = Wanted {
    rc: Rc::Hardware,
    words: &[],
    receipts: &[(0x20, u32::MAX, Answer::Worn)],
};

/// These grants, beside a pool.
fn granted(wanted: &[Grant]) -> Result<Grants, GrantError> {
    let mut grants = Grants::new(0x10_0000_0000, 20);
    for grant in wanted {
        grants.add(*grant)?;
    }
    Ok(grants)
}

#[test]
fn replies_in_turn(rt: HostRuntime) -> Result<(), Fail> {
    let mut table = empty_table(rt.alloc())?;
    for row in IN_TURN {
        let grants = granted(row.grants)?;
        let (pteh, ptel) = row.words;
        let reply = h_enter(&mut table, &grants, row.flags, row.ptex, pteh, ptel);
        expect(&rt, row.name, &reply, &row.wanted);
    }
    // V is set, the hypervisor's bits are clear
    let reply = h_enter(
        &mut table,
        &granted(&[STORAGE])?,
        EXACT,
        0x27,
        0x1001,
        0x3012,
    );
    for receipt in reply.receipts.as_slice() {
        assert_eq!(rt; receipt.before.words(), (0x1001, 0x3012));
    }
    Ok(())
}

#[test]
fn fills_a_group_in_slot_order(rt: HostRuntime) -> Result<(), Fail> {
    let grants = granted(&[STORAGE])?;
    let mut table = empty_table(rt.alloc())?;
    for slot in 0x20..0x28 {
        let reply = h_enter(&mut table, &grants, 0, 0x23, 0x1001, 0x3012);
        assert_eq!(rt; reply.rc, Rc::Success);
        assert_eq!(rt; reply.words.as_slice(), [slot].as_slice());
    }
    let reply = h_enter(&mut table, &grants, 0, 0x23, 0x1001, 0x3012);
    expect(&rt, "a full group", &reply, &FULL);
    Ok(())
}

#[test]
fn wants_storage_control_bits_that_suit(rt: HostRuntime) -> Result<(), Fail> {
    let grants = granted(&[STORAGE, DEVICE])?;
    for (ptel, rc) in CONTROL_BITS {
        let mut table = empty_table(rt.alloc())?;
        let reply = h_enter(&mut table, &grants, 0, 0x20, 0x1001, *ptel);
        assert!(rt; reply.rc == *rc, "at {ptel:x}");
    }
    Ok(())
}

#[test]
fn leaves_a_worn_entry(rt: HostRuntime) -> Result<(), Fail> {
    let grants = granted(&[STORAGE])?;
    let mut table = table_with(rt.alloc(), EntryState::empty(u32::MAX))?;
    let reply = h_enter(&mut table, &grants, 0, 0x20, 0x1001, 0x3012);
    expect(&rt, "a worn entry", &reply, &WORN);
    Ok(())
}

#[test]
fn enters_words_that_were_checked(rt: HostRuntime) -> Result<(), Fail> {
    let mut table = empty_table(rt.alloc())?;
    let reply = enter_words(&mut table, EXACT, 0x27, 0x1001, 0x3012);
    expect(&rt, "words that were checked", &reply, &AT_27);
    Ok(())
}
