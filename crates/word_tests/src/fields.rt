//! Fields of an entry's doublewords, the protection that H_PROTECT gives, and the doublewords that
//! H_ENTER stores.
use hpte_fields::{
    bolted, frame, key, no_execute, normal, one_tb, pp, protected, secondary, tag_of, wimg,
};

#[test]
fn fields_of_doubleword_0(rt: HostRuntime) {
    // B is 1; the page number 0x80_1080; bolted, L, H and V.
    let word = 0x4000_0000_0080_1097;
    assert_eq!(rt; tag_of(word), 0x4000_0000_0080_1080);
    assert_eq!(rt;
        (secondary(word), bolted(word), one_tb(word)),
        (true, true, true)
    );
    // The hypervisor's bits, L and V alone.
    assert_eq!(rt;
        (secondary(0x65), bolted(0x65), one_tb(0x65)),
        (false, false, false)
    );
    assert_eq!(rt; one_tb(0xC000_0000_0000_0001), false);
}

#[test]
fn fields_of_doubleword_1(rt: HostRuntime) {
    // PP0; key high 2; the page at 0x1234_5000; key low 5; R and C; W and M; N; PP 1.
    let word = 0xA000_0000_1234_5BD5;
    assert_eq!(rt; (pp(word), key(word), wimg(word)), (0b101, 0b10101, 0b1010));
    assert_eq!(rt; frame(word, 12), 0x1234_5000);
    assert_eq!(rt; frame(word, 24), 0x1200_0000);
    // N, G, and neither.
    assert_eq!(rt;
        (no_execute(0x3004), no_execute(0x3008), no_execute(0x3FF3)),
        (true, true, false)
    );
}

#[test]
fn protection_of_the_flags(rt: HostRuntime) {
    // PP0, key high 3, key low 7, N and PP 3 are set; R, C, M and the page stay.
    assert_eq!(rt; protected(0x3190, u64::MAX), 0xB000_0000_0000_3F97);
    assert_eq!(rt; protected(0xB000_0000_0000_3F97, 0), 0x3190);
    // key high 1, from 0x1000, and PP 2
    assert_eq!(rt; protected(0x3011, 0x1002), 0x1000_0000_0000_3012);
}

#[test]
fn words_that_h_enter_stores(rt: HostRuntime) {
    assert_eq!(rt;
        normal(0x1070, 0x4000_0000_0000_3192),
        Some((0x1011, 0x3192))
    );
    assert_eq!(rt;
        normal(0x4000_0000_0000_1005, 0x5_1012),
        Some((0x4000_0000_0000_1005, 0x5_1012))
    );
    // B is 2, and no page size has a 2 in the low digits of the page number.
    assert_eq!(rt; normal(0x8000_0000_0000_1001, 0x3012), None);
    assert_eq!(rt; normal(0x1005, 0x2012), None);
}
