//! The calls that read, change or remove entries, on entry 0x20: each reply with its code, words
//! and receipts.
use super::{Wanted, entry, expect, table_with};
use entry_model::{Answer, HReply};
use h_update::{h_bulk_remove, h_clear_mod, h_clear_ref, h_protect, h_read, h_remove};
use papr_codes::Rc;
use papr_table::PlainTable;
use std::test::Fail;

/// A hypervisor call on an entry.
#[derive(Clone, Copy)]
enum Call {
    Remove { flags: u64, avpn: u64 },
    Protect { flags: u64, avpn: u64 },
    Read { flags: u64 },
    ClearRef,
    ClearMod,
}

/// A call on the entry of this index, and its reply.
struct Row {
    call: Call,
    ptex: u64,
    wanted: Wanted,
}

/// Calls in turn on a table of empty entries except for entry 0x20, which H_ENTER made. `touched`
/// says that R and C are set.
struct Case {
    name: &'static str,
    dword0: u64,
    touched: bool,
    rows: &'static [Row],
}

/// The four pairs of an H_BULK_REMOVE on such a table, and its reply.
struct Bulk {
    name: &'static str,
    touched: bool,
    stamp: u32,
    pairs: [u64; 8],
    wanted: Wanted,
}

/// H_AVPN.
const AVPN: u64 = 0x8000_0000;

/// The reply where the entry is not found, at this stamp.
const NOT_FOUND_1: Wanted = Wanted {
    rc: Rc::NotFound,
    words: &[],
    receipts: &[(0x20, 1, Answer::NotFound)],
};

/// The reply of a call that touches no entry.
const REFUSED: Wanted = Wanted {
    rc: Rc::Parameter,
    words: &[],
    receipts: &[],
};

/// An index past the table, and two that are in it.
const PAST: u64 = 0x4000;

const ENTRY: u64 = 0x20;

const NEAR: u64 = 0x22;

const CASES: &[Case] = &[
    Case {
        name: "C and R are cleared, and a removal without both flags is refused",
        dword0: 0x1001,
        touched: true,
        rows: &[
            Row {
                call: Call::ClearMod,
                ptex: ENTRY,
                wanted: Wanted {
                    rc: Rc::Success,
                    words: &[0x3192],
                    receipts: &[(0x20, 1, Answer::Was)],
                },
            },
            Row {
                call: Call::ClearRef,
                ptex: ENTRY,
                wanted: Wanted {
                    rc: Rc::Success,
                    words: &[0x3112],
                    receipts: &[(0x20, 2, Answer::Was)],
                },
            },
            Row {
                call: Call::Remove {
                    flags: 0xC000_0000,
                    avpn: 0x1000,
                },
                ptex: ENTRY,
                wanted: Wanted {
                    rc: Rc::NotFound,
                    words: &[],
                    receipts: &[(0x20, 3, Answer::NotFound)],
                },
            },
        ],
    },
    Case {
        name: "the page that is named is removed, once",
        dword0: 0x1001,
        touched: false,
        rows: &[
            Row {
                call: Call::Remove {
                    flags: AVPN,
                    avpn: 0x2000,
                },
                ptex: ENTRY,
                wanted: NOT_FOUND_1,
            },
            Row {
                call: Call::Remove {
                    flags: AVPN,
                    avpn: 0x1000,
                },
                ptex: ENTRY,
                wanted: Wanted {
                    rc: Rc::Success,
                    words: &[0x1001, 0x3012],
                    receipts: &[(0x20, 1, Answer::Removed)],
                },
            },
            Row {
                call: Call::Remove {
                    flags: AVPN,
                    avpn: 0x1000,
                },
                ptex: ENTRY,
                wanted: Wanted {
                    rc: Rc::NotFound,
                    words: &[],
                    receipts: &[(0x20, 2, Answer::NotFound)],
                },
            },
        ],
    },
    Case {
        name: "a bolted entry is kept",
        dword0: 0x1011,
        touched: false,
        rows: &[Row {
            call: Call::Remove {
                flags: 0x4000_0000,
                avpn: 0x10,
            },
            ptex: ENTRY,
            wanted: NOT_FOUND_1,
        }],
    },
    Case {
        name: "an entry is protected and read",
        dword0: 0x1001,
        touched: false,
        rows: &[
            Row {
                call: Call::Protect {
                    flags: 0x3103,
                    avpn: 0,
                },
                ptex: ENTRY,
                wanted: Wanted {
                    rc: Rc::Success,
                    words: &[],
                    receipts: &[(0x20, 1, Answer::Protected)],
                },
            },
            Row {
                call: Call::Read { flags: 0 },
                ptex: ENTRY,
                wanted: Wanted {
                    rc: Rc::Success,
                    words: &[0x1001, 0xB000_0000_0000_3013],
                    receipts: &[(0x20, 2, Answer::Words)],
                },
            },
        ],
    },
    Case {
        name: "four entries are read",
        dword0: 0x1001,
        touched: false,
        rows: &[Row {
            call: Call::Read {
                flags: 0x20_0000_0000,
            },
            ptex: NEAR,
            wanted: Wanted {
                rc: Rc::Success,
                words: &[0x1001, 0x3012, 0, 0, 0, 0, 0, 0],
                receipts: &[
                    (0x20, 1, Answer::Words),
                    (0x21, 0, Answer::Words),
                    (0x22, 0, Answer::Words),
                    (0x23, 0, Answer::Words),
                ],
            },
        }],
    },
    Case {
        name: "an index past the table is refused",
        dword0: 0x1001,
        touched: false,
        rows: &[
            Row {
                call: Call::Remove { flags: 0, avpn: 0 },
                ptex: PAST,
                wanted: REFUSED,
            },
            Row {
                call: Call::Protect { flags: 0, avpn: 0 },
                ptex: PAST,
                wanted: REFUSED,
            },
            Row {
                call: Call::Read { flags: 0 },
                ptex: PAST,
                wanted: REFUSED,
            },
            Row {
                call: Call::ClearRef,
                ptex: PAST,
                wanted: REFUSED,
            },
            Row {
                call: Call::ClearMod,
                ptex: PAST,
                wanted: REFUSED,
            },
        ],
    },
];

/// Requests to remove entries 0x20 and 0x21.
const REMOVE: u64 = 0x4000_0000_0000_0020;

const NEXT: u64 = 0x4000_0000_0000_0021;

const BULKS: &[Bulk] = &[
    Bulk {
        name: "up to a pair that is ill formed",
        touched: true,
        stamp: 1,
        pairs: [REMOVE, 0, NEXT, 0, 0x4300_0000_0000_0022, 0, REMOVE, 0],
        wanted: Wanted {
            rc: Rc::Parameter,
            words: &[
                0x8C00_0000_0000_0020,
                0,
                0x9000_0000_0000_0021,
                0,
                0xA300_0000_0000_0022,
                0,
                REMOVE,
                0,
            ],
            receipts: &[(0x20, 1, Answer::Removed), (0x21, 0, Answer::NotFound)],
        },
    },
    Bulk {
        name: "the end first",
        touched: false,
        stamp: 1,
        pairs: [
            0xC000_0000_0000_0000,
            0x1000,
            REMOVE,
            7,
            REMOVE,
            8,
            REMOVE,
            9,
        ],
        wanted: Wanted {
            rc: Rc::Success,
            words: &[
                0xC000_0000_0000_0000,
                0x1000,
                REMOVE,
                7,
                REMOVE,
                8,
                REMOVE,
                9,
            ],
            receipts: &[],
        },
    },
    Bulk {
        name: "an index past the table first",
        touched: false,
        stamp: 1,
        pairs: [
            0x4000_0000_0000_4000,
            0x1000,
            REMOVE,
            7,
            REMOVE,
            8,
            REMOVE,
            9,
        ],
        wanted: Wanted {
            rc: Rc::Parameter,
            words: &[
                0xA000_0000_0000_4000,
                0x1000,
                REMOVE,
                7,
                REMOVE,
                8,
                REMOVE,
                9,
            ],
            receipts: &[],
        },
    },
    Bulk {
        name: "both flags first",
        touched: false,
        stamp: 1,
        pairs: [
            0x4300_0000_0000_0020,
            0x1000,
            REMOVE,
            7,
            REMOVE,
            8,
            REMOVE,
            9,
        ],
        wanted: Wanted {
            rc: Rc::Parameter,
            words: &[
                0xA300_0000_0000_0020,
                0x1000,
                REMOVE,
                7,
                REMOVE,
                8,
                REMOVE,
                9,
            ],
            receipts: &[],
        },
    },
    Bulk {
        name: "a response in place of a request",
        touched: false,
        stamp: 1,
        pairs: [
            0x8100_0000_0000_0020,
            0x1000,
            REMOVE,
            7,
            REMOVE,
            8,
            REMOVE,
            9,
        ],
        wanted: Wanted {
            rc: Rc::Parameter,
            words: &[
                0xA100_0000_0000_0020,
                0x1000,
                REMOVE,
                7,
                REMOVE,
                8,
                REMOVE,
                9,
            ],
            receipts: &[],
        },
    },
    Bulk {
        name: "a worn entry first",
        touched: false,
        stamp: u32::MAX,
        pairs: [REMOVE, 5, NEXT, 6, NEXT, 7, NEXT, 8],
        wanted: Wanted {
            rc: Rc::Hardware,
            words: &[0xB000_0000_0000_0020, 5, NEXT, 6, NEXT, 7, NEXT, 8],
            receipts: &[(0x20, u32::MAX, Answer::Worn)],
        },
    },
];

/// The reply where entry 0x20 is at its last stamp.
const WORN: Wanted = Wanted {
    rc: Rc::Hardware,
    words: &[],
    receipts: &[(0x20, u32::MAX, Answer::Worn)],
};

/// The reply of a call on an entry.
fn replied(table: &mut PlainTable, call: Call, ptex: u64) -> HReply {
    match call {
        Call::Remove { flags, avpn } => h_remove(table, flags, ptex, avpn),
        Call::Protect { flags, avpn } => h_protect(table, flags, ptex, avpn),
        Call::Read { flags } => h_read(table, flags, ptex),
        Call::ClearRef => h_clear_ref(table, 0, ptex),
        Call::ClearMod => h_clear_mod(table, 0, ptex),
    }
}

#[test]
fn replies_in_turn(rt: HostRuntime) -> Result<(), Fail> {
    for case in CASES {
        let state = entry(case.dword0, 0x3012, (case.touched, case.touched), 1);
        let mut table = table_with(rt.alloc(), state)?;
        for row in case.rows {
            let reply = replied(&mut table, row.call, row.ptex);
            expect(&rt, case.name, &reply, &row.wanted);
        }
    }
    Ok(())
}

#[test]
fn removes_in_bulk(rt: HostRuntime) -> Result<(), Fail> {
    for row in BULKS {
        let state = entry(0x1001, 0x3012, (row.touched, row.touched), row.stamp);
        let mut table = table_with(rt.alloc(), state)?;
        let reply = h_bulk_remove(&mut table, &row.pairs);
        expect(&rt, row.name, &reply, &row.wanted);
    }
    Ok(())
}

#[test]
fn leaves_a_worn_entry(rt: HostRuntime) -> Result<(), Fail> {
    let mut table = table_with(rt.alloc(), entry(0x1001, 0x3012, (false, false), u32::MAX))?;
    let reply = h_remove(&mut table, 0, ENTRY, 0);
    expect(&rt, "a worn entry", &reply, &WORN);
    Ok(())
}
