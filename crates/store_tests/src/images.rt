//! Table images: entries spelt as digits in both layouts and read back, and what a layout can't
//! hold.
use std::alloc::Global;
use std::fmt::Write;
use std::test::Fail;
use table_image::{ImageEntry, ImageError, Layout, digits_of, image_text, words_of};

/// The digits of a text that has 32 of them.
fn digits(text: &str) -> Result<[u8; 32], Fail> {
    match <[u8; 32]>::try_from(text.as_bytes()) {
        Ok(digits) => Ok(digits),
        Err(_) => Err("not 32 digits".into()),
    }
}

#[test]
fn entries_are_spelt_and_read_back(rt: HostRuntime) -> Result<(), Fail> {
    let rows = [
        (
            Layout::Old,
            0x1001,
            0x3012,
            "00000000000010010000000000003012",
        ),
        (
            Layout::Old,
            u64::MAX,
            0xBEDC_BA98_7654_3210,
            "ffffffffffffffffbedcba9876543210",
        ),
        (
            Layout::New,
            0x4000_0000_0100_0001,
            0x3012,
            "00000000010000010400000000003012",
        ),
        (
            Layout::New,
            0x800F_FFFF_FFFF_FF91,
            0x8000_0000_0123_4192,
            "000fffffffffff918800000001234192",
        ),
    ];
    for (layout, dword0, dword1, text) in rows {
        let spelt = digits(text)?;
        assert_eq!(rt; digits_of(layout, dword0, dword1), Some(spelt));
        assert_eq!(rt; words_of(layout, &spelt), Some((dword0, dword1)));
    }
    Ok(())
}

#[test]
fn what_a_layout_lacks_is_refused(rt: HostRuntime) -> Result<(), Fail> {
    assert_eq!(rt; digits_of(Layout::New, 0x0010_0000_0000_1001, 0x3012), None);
    assert_eq!(rt; digits_of(Layout::New, 0x1001, 0x0400_0000_0000_3012), None);
    assert!(rt; digits_of(Layout::Old, 0x0010_0000_0000_1001, 0x3012).is_some());
    let rows = [
        (
            Layout::Old,
            "00000000DEADBEEF000000000000ABcd",
            Some((0xDEAD_BEEF, 0xABCD)),
        ),
        (Layout::Old, "0000000000001001 000000000003012", None),
        (Layout::Old, "00000000000010014000000000003012", None),
        (Layout::New, "00000000000010014000000000003012", None),
        (Layout::New, "00100000000010010000000000003012", None),
        (
            Layout::Old,
            "00100000000010010000000000003012",
            Some((0x0010_0000_0000_1001, 0x3012)),
        ),
    ];
    for (layout, text, words) in rows {
        assert_eq!(rt; words_of(layout, &digits(text)?), words);
    }
    Ok(())
}

fn entry(index: u32, dword0: u64, dword1: u64) -> ImageEntry {
    ImageEntry {
        index,
        dword0,
        dword1,
    }
}

/// Entries of every B that a page has, at every third index, in which R and C vary.
fn many(alloc: Global, count: u32) -> Result<Vec<ImageEntry>, Fail> {
    let mut entries = Vec::new(alloc);
    for i in 0..count {
        let number = u64::from(i);
        let dword0 = number << 12 | number % 2 << 62 | 1;
        let dword1 = number << 12 | number % 4 << 7 | 2;
        entries.push(entry(i.wrapping_mul(3), dword0, dword1))?;
    }
    Ok(entries)
}

#[test]
fn an_image_of_many_entries(rt: HostRuntime) -> Result<(), Fail> {
    let alloc = rt.alloc();
    let mut old = String::from_str(alloc, "image old order 19 entries 4000\n")?;
    let mut new = String::from_str(alloc, "image new order 19 entries 4000\n")?;
    for i in 0..4000u64 {
        // The digit that has B, 0 or 4.
        let top = 4 * (i % 2);
        let first = (i << 12) + 1;
        let second = (i << 12) + 128 * (i % 4) + 2;
        write!(old, "0x{:x} {top}{first:015x}{second:016x}\n", 3 * i)?;
        write!(new, "0x{:x} {first:016x}{top:02x}{second:014x}\n", 3 * i)?;
    }
    let table = many(alloc, 4000)?;
    let image = image_text(alloc, Layout::Old, table.as_slice(), 19)?;
    assert!(rt; image.as_bytes() == old.as_bytes());
    let image = image_text(alloc, Layout::New, table.as_slice(), 19)?;
    assert!(rt; image.as_bytes() == new.as_bytes());
    Ok(())
}

#[test]
fn the_first_entry_past_the_layout(rt: HostRuntime) -> Result<(), Fail> {
    let alloc = rt.alloc();
    let table = [
        entry(8, 0x1001, 0x3012),
        entry(60, 0x2000_0000_0000_1001, 0x3012),
        entry(120, 0x1001, 0x0800_0000_0000_3012),
    ];
    let refused = image_text(alloc, Layout::New, &table, 18);
    assert!(rt; matches!(refused, Err(ImageError::Layout { index: 60 })));
    assert!(rt; image_text(alloc, Layout::Old, &table, 18).is_ok());
    let none = image_text(alloc, Layout::New, &[], 46)?;
    assert!(rt; none.as_bytes() == b"image new order 46 entries 0\n".as_slice());
    Ok(())
}
