//! Segments of a processor: which words of an `slbmte` are refused, and which page an address has.
use slb_model::{BadSlb, Slb};
use std::test::Fail;

/// Words of an `slbmte` that are refused, and why.
const REFUSED: [(u64, u64, BadSlb); 4] = [
    (0x800_0020, 0x1000, BadSlb::Slot),
    (0x800_0000, 0x8000_0000_0000_1000, BadSlb::SegmentSize),
    (0x800_0000, 0x1120, BadSlb::PageSize),
    (0x800_0000, 0x1010, BadSlb::PageSize),
];

#[test]
fn words_are_refused(rt: HostRuntime) {
    let mut slb = Slb::new();
    for (rb, rs, why) in REFUSED {
        assert_eq!(rt; slb.mte(rb, rs), Err(why));
    }
    // With V clear no other bit counts.
    assert_eq!(rt; slb.mte(0, 0x8000_0000_0000_1120), Ok(()));
    assert_eq!(rt; slb.segment(0x5000), None);
}

/// The second word of an `slbmte`, an address, its page's B, VSID, shift and index, and Ks, Kp and
/// N.
type SegmentRow = (u64, u64, (bool, u64, u8, u64), (bool, bool, bool));

const SEGMENTS: [SegmentRow; 2] = [
    (0x1000, 0x5000, (false, 1, 12, 5), (false, false, false)),
    // 1 TB, Ks and N, in pages of 16 GB.
    (
        0x4000_0000_0100_0b20,
        0x12_3456_7890,
        (true, 1, 34, 4),
        (true, false, true),
    ),
];

#[test]
fn the_segment_of_an_address(rt: HostRuntime) -> Result<(), Fail> {
    for (rs, ea, wanted, bits) in SEGMENTS {
        let mut slb = Slb::new();
        assert_eq!(rt; slb.mte(0x800_0000, rs), Ok(()));
        let segment = slb.segment(ea).ok_or("no segment")?;
        let page = &segment.page;
        let found = (page.one_tb(), page.vsid(), page.shift(), page.index());
        assert_eq!(rt; found, wanted);
        assert_eq!(rt; (segment.ks, segment.kp, segment.no_execute), bits);
    }
    Ok(())
}

#[test]
fn an_address_past_its_segment(rt: HostRuntime) {
    for (rs, ea) in [
        (0x1000, 0x1000_5000),
        (0x4000_0000_0100_0b20, 0x100_0000_0000),
    ] {
        let mut slb = Slb::new();
        assert_eq!(rt; slb.mte(0x800_0000, rs), Ok(()));
        assert_eq!(rt; slb.segment(ea), None);
    }
}

/// The words of an `slbmte`, what it answers, and the VSID that address 0 has then.
type SlotRow = (u64, u64, Result<(), BadSlb>, u64);

const SLOTS: [SlotRow; 4] = [
    (0x800_0003, 0x3000, Ok(()), 3),
    // The lower slot counts, and stays where the next words are refused.
    (0x800_0001, 0x2000, Ok(()), 2),
    (0x800_0001, 0x2130, Err(BadSlb::PageSize), 2),
    // Slot 1 without V.
    (0x1, 0x2000, Ok(()), 3),
];

#[test]
fn the_lowest_slot_counts(rt: HostRuntime) -> Result<(), Fail> {
    let mut slb = Slb::new();
    for (rb, rs, answer, vsid) in SLOTS {
        assert_eq!(rt; slb.mte(rb, rs), answer);
        assert_eq!(rt; slb.segment(0).ok_or("no segment")?.page.vsid(), vsid);
    }
    slb.clear();
    assert_eq!(rt; slb.segment(0), None);
    Ok(())
}
