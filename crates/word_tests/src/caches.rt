//! A processor's cached translations: the first of a full set gives way, other sets stay, and a
//! removal makes room.
use entry_model::Line;
use power_addr::Page;
use std::process::Abort;
use std::test::Fail;
use tlb_model::Tlb;

/// The page of this index in the segment 1 of 256 MB, in pages of 4 KB.
fn page(index: u64) -> Result<Page, Fail> {
    Ok(Page::new(false, 1, 12, index).ok_or("no page")?)
}

/// The line of this page by this entry.
fn line(index: u64, entry: u32) -> Result<Line, Fail> {
    Ok(Line {
        page: page(index)?,
        entry,
        stamp: 1,
        dword0: 0x1001,
        dword1: 0x3012,
    })
}

/// Fills a line of a page that has none.
fn put(tlb: &mut Tlb, line: Line) {
    if tlb.find(&line.page).is_none() {
        tlb.fill(line);
    }
}

fn filled(indices: [u64; 5]) -> Result<Tlb, Fail> {
    let mut tlb = Tlb::new();
    for index in indices {
        put(&mut tlb, line(index, 0x20)?);
    }
    Ok(tlb)
}

/// The page of each index is translated by the entry given with it, or by none.
fn check(rt: &impl Abort, tlb: &Tlb, found: &[(u64, Option<u32>)]) -> Result<(), Fail> {
    for (index, entry) in found {
        let wanted = match *entry {
            Some(entry) => Some(line(*index, entry)?),
            None => None,
        };
        assert_eq!(rt; tlb.find(&page(*index)?), wanted);
    }
    Ok(())
}

#[test]
fn the_first_of_five_goes(rt: HostRuntime) -> Result<(), Fail> {
    // 5 modulo 32, each
    let tlb = filled([0x5, 0x25, 0x45, 0x65, 0x85])?;
    check(
        &rt,
        &tlb,
        &[(0x5, None), (0x25, Some(0x20)), (0x85, Some(0x20))],
    )
}

#[test]
fn other_sets_stay(rt: HostRuntime) -> Result<(), Fail> {
    let tlb = filled([0x6, 0x25, 0x45, 0x65, 0x85])?;
    check(
        &rt,
        &tlb,
        &[(0x6, Some(0x20)), (0x25, Some(0x20)), (0x5, None)],
    )
}

#[test]
fn a_line_is_taken_out(rt: HostRuntime) -> Result<(), Fail> {
    let mut tlb = filled([0x5, 0x25, 0x45, 0x65, 0x7])?;
    tlb.drop_line(&page(0x25)?);
    // there is room again, so that the first stays
    put(&mut tlb, line(0x85, 0x21)?);
    check(
        &rt,
        &tlb,
        &[(0x25, None), (0x5, Some(0x20)), (0x85, Some(0x21))],
    )?;
    tlb.clear();
    check(&rt, &tlb, &[(0x5, None), (0x7, None)])
}
