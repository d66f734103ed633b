//! Hypervisor calls and return codes, with their numbers in LoPAR and Linux, and the flag bits that
//! count.
use papr_codes::{CallFlags, Hcall, Rc};

/// The numbers, names and calls of LoPAR and of Linux's `hvcall.h`.
const CALLS: [(u64, &str, Hcall); 12] = [
    (4, "H_REMOVE", Hcall::Remove),
    (8, "H_ENTER", Hcall::Enter),
    (12, "H_READ", Hcall::Read),
    (16, "H_CLEAR_MOD", Hcall::ClearMod),
    (20, "H_CLEAR_REF", Hcall::ClearRef),
    (24, "H_PROTECT", Hcall::Protect),
    (292, "H_BULK_REMOVE", Hcall::BulkRemove),
    (876, "H_RESIZE_HPT_PREPARE", Hcall::Prepare),
    (880, "H_RESIZE_HPT_COMMIT", Hcall::Commit),
    (28, "H_GET_TCE", Hcall::GetTce),
    (32, "H_PUT_TCE", Hcall::PutTce),
    (312, "hcall", Hcall::Other(312)),
];

#[test]
fn calls_have_their_numbers_and_names(rt: HostRuntime) {
    for (number, name, call) in CALLS {
        let found = Hcall::of_number(number);
        assert!(rt; found == call, "call {number}");
        assert_eq!(rt; found.number(), number);
        assert_eq!(rt; found.name(), name);
    }
}

#[test]
fn return_codes_have_their_values(rt: HostRuntime) {
    let codes = [
        (Rc::Success, 0),
        (Rc::Busy, 1),
        (Rc::Closed, 2),
        (Rc::LongBusy, 9900),
        (Rc::Hardware, -1),
        (Rc::Function, -2),
        (Rc::Parameter, -4),
        (Rc::PtegFull, -6),
        (Rc::NotFound, -7),
        (Rc::NoMem, -9),
        (Rc::Resource, -16),
    ];
    for (rc, value) in codes {
        assert_eq!(rt; rc.code(), value);
    }
}

#[test]
fn unknown_flag_bits_are_ignored(rt: HostRuntime) {
    let flags = CallFlags::of(0x88_8000_0001);
    assert!(rt; flags.has(CallFlags::EXACT));
    assert!(rt; flags.has(CallFlags::AVPN));
    assert!(rt; !flags.has(CallFlags::READ_4));
    assert!(rt; !flags.has(CallFlags::AND_COND));
    assert!(rt; flags == CallFlags::EXACT | CallFlags::AVPN);
    assert!(rt; !flags.has(CallFlags::AVPN | CallFlags::AND_COND));
}
