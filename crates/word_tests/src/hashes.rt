//! The primary and the secondary group of a page, and the page that an entry translates, in worked
//! rows.
use hpt_hash::{groups, page_of};
use power_addr::Page;
use std::test::Fail;

/// A page's parts, the order of a table, and the page's primary and secondary group in it.
type GroupRow = (bool, u64, u8, u64, u8, u64, u64);

/// The groups by the text of the Power ISA.
const GROUPS: [GroupRow; 6] = [
    // 1 ^ 5 = 4, and 0x7FF - 4 = 0x7FB
    (false, 1, 12, 5, 18, 4, 0x7FB),
    // 0x801 ^ 5 = 0x804, and 0xFFF - 0x804 = 0x7FB
    (false, 0x801, 12, 5, 19, 0x804, 0x7FB),
    // 16 MB: 0x2_0000_0007 ^ 5 = 0x2_0000_0002, of which 11 bits are 2, and 0x7FF - 2 = 0x7FD
    (false, 0x2_0000_0007, 24, 5, 18, 2, 0x7FD),
    // 1 TB: 0x12345 << 25 = 0x246_8A00_0000, of which 39 bits are 0x46_8A00_0000;
    // 0x12345 ^ 0xABCDEF = 0xAA_EEAA; together 0x46_8AAA_EEAA, of which 11 bits are 0x6AA
    (true, 0x12345, 12, 0xABCDEF, 18, 0x6AA, 0x155),
    // the same under 39 bits, and 0x7F_FFFF_FFFF - 0x46_8AAA_EEAA = 0x39_7555_1155
    (
        true,
        0x12345,
        12,
        0xABCDEF,
        46,
        0x46_8AAA_EEAA,
        0x39_7555_1155,
    ),
    // 16 GB: 0x15 << 25 = 0x2A00_0000 and 0x15 ^ 9 = 0x1C, of which 29 bits are 0xA00_001C,
    // and 0x1FFF_FFFF - 0xA00_001C = 0x15FF_FFE3
    (true, 0x15, 34, 9, 36, 0xA00_001C, 0x15FF_FFE3),
];

#[test]
fn groups_of_pages(rt: HostRuntime) -> Result<(), Fail> {
    for (one_tb, vsid, shift, index, order, primary, secondary) in GROUPS {
        let page = Page::new(one_tb, vsid, shift, index).ok_or("no page")?;
        assert_eq!(rt; groups(&page, order), (primary, secondary));
    }
    Ok(())
}

/// An entry's index in a table of order 18 and its doublewords, and the parts of its page.
type EntryRow = (u32, u64, u64, bool, u64, u8, u64);

/// The pages of entries: a tag is the virtual address without its low 23 bits, from bit 7 on, and
/// B.
const ENTRIES: [EntryRow; 7] = [
    // 1 * 2^28 + 5 * 2^12 = 0x1000_5000 has the tag 0x1000; group 4
    (0x20, 0x1001, 0x3012, false, 1, 12, 5),
    // group 0x7FB, with H
    (0x3FD8, 0x1003, 0x3012, false, 1, 12, 5),
    // group 5, and 5 ^ 1 = 4
    (0x28, 0x1001, 0x3012, false, 1, 12, 4),
    // 0x12345 * 2^40 + 0xABCDEF * 2^12 = 0x123_450A_BCDE_F000: without 16 bits 0x123_450A_BCDE,
    // without the low seven of these 0x123_450A_BC80, and B is 1; group 0x6AA, slot 3
    (
        0x3553,
        0x4000_0123_450A_BC81,
        0x3012,
        true,
        0x12345,
        12,
        0xABCDEF,
    ),
    // 0x2_0000_0007 * 2^28 + 5 * 2^24 = 0x2000_0000_7500_0000: without 16 bits 0x2000_0000_7500;
    // L for 16 MB; group 2, slot 1
    (
        0x11,
        0x2000_0000_7505,
        0x300_0012,
        false,
        0x2_0000_0007,
        24,
        5,
    ),
    // the same in its secondary group 0x7FD
    (
        0x3FE8,
        0x2000_0000_7507,
        0x300_0012,
        false,
        0x2_0000_0007,
        24,
        5,
    ),
    // 0x15 * 2^40 + 9 * 2^34 = 0x1524_0000_0000: without 16 bits 0x1524_0000, and B is 1;
    // L for 16 GB, whose real page number ends in 3; group 0x1C
    (
        0xE0,
        0x4000_0000_1524_0005,
        0x4_0000_3012,
        true,
        0x15,
        34,
        9,
    ),
];

#[test]
fn pages_of_entries(rt: HostRuntime) -> Result<(), Fail> {
    for (entry, dword0, dword1, one_tb, vsid, shift, index) in ENTRIES {
        let page = Page::new(one_tb, vsid, shift, index).ok_or("no page")?;
        assert_eq!(rt; page_of(18, entry, dword0, dword1), Some(page));
    }
    Ok(())
}

/// The pages of entries whose actual page is larger than their base page.
const ENTRIES_OF_MIXED_SIZES: [EntryRow; 3] = [
    // 4 KB in 64 KB (L, and 7 as the last digit of the real page number): 0x1000_5000 in its tag,
    // and the next base page of the same 64 KB, 1 ^ 6 = 7
    (0x20, 0x1005, 0x1_7012, false, 1, 12, 5),
    (0x38, 0x1005, 0x1_7012, false, 1, 12, 6),
    // 64 KB in 16 MB: 0x1580_0000 without 16 bits is 0x1580, its page 0x580, and 1 ^ 0x580 = 0x581
    (0x2C08, 0x1585, 0x300_8012, false, 1, 16, 0x580),
];

#[test]
fn base_pages_inside_larger_pages(rt: HostRuntime) -> Result<(), Fail> {
    for (entry, dword0, dword1, one_tb, vsid, shift, index) in ENTRIES_OF_MIXED_SIZES {
        let page = Page::new(one_tb, vsid, shift, index).ok_or("no page")?;
        assert_eq!(rt; page_of(18, entry, dword0, dword1), Some(page));
    }
    Ok(())
}

/// Entries that translate no page: an index in a table of order 18, and the doublewords.
const ENTRIES_OF_NO_PAGE: [(u32, u64, u64); 7] = [
    // a 64 KB page of this tag has an index below 0x80, and so has 1 ^ index; the group is 0x80
    (0x400, 0x1015, 0x1_1012),
    // V is clear
    (0x20, 0x1000, 0x3012),
    // L is set, and the real page number encodes no size
    (0x20, 0x1005, 0x2012),
    // 64 KB in 16 MB: 1 ^ 5 is the group of the actual page's number, and not that of page 0x580
    (0x20, 0x1585, 0x300_8012),
    // B is 2
    (0x20, 0x8000_0000_0000_1001, 0x3012),
    // 16 GB in a segment of 256 MB
    (0xE0, 0x1524_0005, 0x4_0000_3012),
    // an address bit inside the 16 MB page
    (0x11, 0x2000_0000_7585, 0x300_0012),
];

#[test]
fn entries_of_no_page(rt: HostRuntime) {
    for (entry, dword0, dword1) in ENTRIES_OF_NO_PAGE {
        assert_eq!(rt; page_of(18, entry, dword0, dword1), None);
    }
}
