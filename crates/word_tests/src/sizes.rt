//! The base and the actual page size that the doublewords of an entry encode, in worked rows.
use page_sizes::{PageSize, decode};

/// Doublewords of entries, and the binary logarithms of the base and the actual page size that
/// they encode.
const SIZES: [(u64, u64, Option<(u8, u8)>); 12] = [
    // L clear: 4 KB, whatever the real page number is.
    (0x1001, 0x3012, Some((12, 12))),
    (0xFFFF_FFFF_FFFF_FFFB, 0x1000, Some((12, 12))),
    // L set: page number 0x51, whose lowest digit is 1
    (0x1005, 0x5_1012, Some((16, 16))),
    // 0x7000, of which the low 12 bits are 0
    (0x1005, 0x0700_0012, Some((24, 24))),
    // 0x80_0003, of which the low 22 bits are 3
    (0x1005, 0x8_0000_3012, Some((34, 34))),
    // 0x17, whose lowest digit is 7
    (0x1005, 0x1_7012, Some((12, 16))),
    // 0x7038, of which the low 12 bits are 0x38
    (0x1005, 0x0703_8012, Some((12, 24))),
    // 0x3008, of which the low 12 bits are 8
    (0x1005, 0x0300_8012, Some((16, 24))),
    // 0x203: the low four bits are 3, and the low 22 are more than 3
    (0x1005, 0x20_3012, None),
    // 0x2
    (0x1005, 0x2012, None),
    // 0x10: the low four bits are 0, and the low 12 are not
    (0x1005, 0x1_0012, None),
    // 0x18: the low four bits are 8, and the low 12 are more than 8
    (0x1005, 0x1_8012, None),
];

#[test]
fn sizes_of_worked_words(rt: HostRuntime) {
    for (dword0, dword1, sizes) in SIZES {
        let size = sizes.map(|(base, actual)| PageSize { base, actual });
        assert_eq!(rt; decode(dword0, dword1), size, "{dword0:x} {dword1:x}");
    }
}
