//! Storage protection: what each value of the three bits allows under key 0 and key 1, and pages
//! without execution.
use storage_prot::{Want, allows};

/// The three bits; whether a load, a store and a fetch may, with key 0 and with key 1.
const ROWS: [(u8, [bool; 3], [bool; 3]); 8] = [
    (0b000, [true, true, true], [false, false, false]),
    (0b001, [true, true, true], [true, false, true]),
    (0b010, [true, true, true], [true, true, true]),
    (0b011, [true, false, true], [true, false, true]),
    (0b100, [false, false, false], [false, false, false]),
    (0b101, [false, false, false], [false, false, false]),
    (0b110, [true, false, true], [false, false, false]),
    (0b111, [false, false, false], [false, false, false]),
];

/// Whether a load, a store and a fetch may.
fn allowed(pp: u8, key: bool, no_execute: bool) -> [bool; 3] {
    [Want::Load, Want::Store, Want::Fetch].map(|want| pp < 8 && allows(pp, key, no_execute, want))
}

#[test]
fn the_table_holds_row_by_row(rt: HostRuntime) {
    for (pp, key_0, key_1) in ROWS {
        assert_eq!(rt; allowed(pp, false, false), key_0);
        assert_eq!(rt; allowed(pp, true, false), key_1);
    }
}

#[test]
fn no_fetch_of_a_page_without_execution(rt: HostRuntime) {
    for (pp, [load, store, _], _) in ROWS {
        assert_eq!(rt; allowed(pp, false, true), [load, store, false]);
    }
}
