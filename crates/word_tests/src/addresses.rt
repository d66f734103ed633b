//! Virtual pages: their tags by the text of the Power ISA, parts that are out of range, and the
//! page of an address.
use power_addr::Page;
use std::test::Fail;

/// The parts and the tag of a page.
type Row = (bool, u64, u8, u64, u64);

/// The tag by the text of the Power ISA: the virtual address, B and the bits from weight 2^23 up.
const TAGS: [Row; 5] = [
    // 1 * 2^28 + 5 * 2^12 = 0x1000_5000; its bits from weight 2^23 up are 0x20, at bit 7: 0x1000
    (false, 1, 12, 5, 0x1000),
    // 0x801 * 2^28 + 5 * 2^12 = 0x80_1000_5000; above weight 2^23 0x1_0020: 0x80_1000
    (false, 0x801, 12, 5, 0x80_1000),
    // 1 * 2^28 + 5 * 2^24 = 0x1500_0000; above weight 2^23 0x2A: 0x1500
    (false, 1, 24, 5, 0x1500),
    // 1 * 2^40 + 5 * 2^12; the index lies below weight 2^23, so 1 * 2^40 / 2^16, and B is 1
    (true, 1, 12, 5, 0x4000_0000_0100_0000),
    // 0x12345 * 2^40 + 5 * 2^34 = 0x123_4514_0000_0000; without its low 16 bits, and B is 1
    (true, 0x12345, 34, 5, 0x4000_0123_4514_0000),
];

#[test]
fn pages_and_tags(rt: HostRuntime) -> Result<(), Fail> {
    for (one_tb, vsid, shift, index, tag) in TAGS {
        let page = Page::new(one_tb, vsid, shift, index).ok_or("no page")?;
        let found = (page.one_tb(), page.vsid(), page.shift(), page.index());
        assert_eq!(rt; found, (one_tb, vsid, shift, index));
        assert_eq!(rt; page.tag(), tag);
    }
    Ok(())
}

/// Parts of which a VSID, a shift or an index is out of range.
const OUT_OF_RANGE: [(bool, u64, u8, u64); 6] = [
    (false, 1 << 50, 12, 0),
    (true, 1 << 38, 12, 0),
    (false, 1, 13, 0),
    (false, 1, 34, 0),
    (false, 1, 24, 16),
    (true, 1, 34, 64),
];

#[test]
fn pages_out_of_range(rt: HostRuntime) {
    for (one_tb, vsid, shift, index) in OUT_OF_RANGE {
        assert_eq!(rt; Page::new(one_tb, vsid, shift, index), None);
    }
}

#[test]
fn page_of_an_address(rt: HostRuntime) {
    let address = 0x12_3456_7890;
    for (one_tb, vsid, shift, page) in [
        (false, 9, 12, Page::new(false, 9, 12, 0x4567)),
        (false, 9, 24, Page::new(false, 9, 24, 4)),
        (true, 9, 24, Page::new(true, 9, 24, 0x1234)),
        (false, 1 << 50, 12, None),
        (true, 9, 20, None),
    ] {
        assert_eq!(rt; Page::of_address(one_tb, vsid, shift, address), page);
    }
}

#[test]
fn default_page(rt: HostRuntime) {
    assert_eq!(rt; Some(Page::default()), Page::new(false, 0, 12, 0));
}
