//! A page table entry decoded: the virtual and the real page of its two doublewords at an index,
//! and its fields, or the first reason why they translate no page.
ghost use Rattle.std.specs.Prelude.{◌≡◌, Some, None, IfOk, IfErr};
ghost use Rattle.hpte_fields.specs.Fields as fields;
ghost use Rattle.papr_c.specs.Decoding as spec;

use hpt_hash::{LOWEST_BIT, page_of, virtual_page_number};
use hpte_fields::{
    CHANGED, REFERENCED, VALID, bolted, entry_count, frame, is_table_order, key, no_execute,
    one_tb, pp, secondary, wimg,
};
use page_sizes::decode;
use power_addr::{Page, shift_in_range};

/// What the two doublewords of an entry say, at its index in a table. What isn't said is 0.
#[repr(C)]
#[derive(Clone, Copy)]
pub struct PaprPage {
    /// The number of the page's segment: 50 bits, or 38 in a segment of 1 TB.
    pub vsid: u64,
    /// The index of the base page in its segment.
    pub page: u64,
    /// The logical address of the real page.
    pub real: u64,
    /// The base page size, as a binary logarithm of bytes.
    pub base_shift: u8,
    /// The size of the real page.
    pub actual_shift: u8,
    /// The virtual page class key: 0 to 31.
    pub key: u8,
    /// The protection bits as a number: PP0 counts 4, and PP the rest.
    pub protection: u8,
    /// The storage control bits: W counts 8, I 4, M 2, G 1.
    pub wimg: u8,
    /// Whether the segment is one of 1 TB, and not of 256 MB.
    pub one_tb: bool,
    /// Whether the entry refuses instruction fetches: N or G is set.
    pub no_execute: bool,
    /// Whether the guest marked the entry as one that a resize keeps.
    pub bolted: bool,
    /// H: whether the entry is one of its page's secondary group.
    pub secondary: bool,
    /// R: the page was referenced.
    pub referenced: bool,
    /// C: the page was changed.
    pub changed: bool,
    /// 0 where the entry translates a page at this index, else the number of the reason why it
    /// doesn't.
    pub why: u32,
}

/// Why two doublewords at an index translate no page.
#[derive(Clone, Copy)]
enum NoPage {
    /// V is clear.
    Empty,
    /// The doublewords encode no page size.
    NoSize,
    /// B is above 1, or no page of that base size lies where the tag says.
    NoSegment,
    /// The page's group isn't the one of this index.
    OtherGroup,
    /// The order or the index is out of range.
    NoIndex,
}

impl NoPage {
    fn number(self) -> u32
        ensures { result ≡ spec.cause_number self }
    {
        match self {
            NoPage::Empty => 1,
            NoPage::NoSize => 2,
            NoPage::NoSegment => 3,
            NoPage::OtherGroup => 4,
            NoPage::NoIndex => 5,
        }
    }
}

fn is_valid(dword0: u64) -> bool
    ensures { result ≡ fields.is_valid dword0 }
{
    dword0 & VALID == VALID
}

/// Whether an index lies in a table of 2^order bytes.
fn is_index(order: u8, ptex: u64) -> bool
    ensures { result ≡ spec.is_index order ptex }
{
    is_table_order(order) && ptex < u64::from(entry_count(order))
}

/// Whether a page of this base size lies where the tag says.
fn fits_tag(dword0: u64, base: u8) -> bool
    ensures { result ≡ spec.fits_tag dword0 base }
{
    if dword0 >> 62 > 1 || !shift_in_range(one_tb(dword0), base) {
        return false;
    }
    virtual_page_number(dword0) % (1 << u32::from(base).saturating_sub(LOWEST_BIT)) == 0
}

/// The page that the doublewords translate at this index, or the first reason why they translate
/// none.
fn found_here(order: u8, ptex: u64, dword0: u64, dword1: u64) -> Result<Page, NoPage>
    ensures page { IfOk
        result
        (λ p. (spec.page_here order ptex dword0 dword1 ≡ Some p)
        × (spec.cause_of order ptex dword0 dword1 ≡ None)) }
    ensures none { IfErr
        result
        (λ cause. (spec.page_here order ptex dword0 dword1 ≡ None)
        × (spec.cause_of order ptex dword0 dword1 ≡ Some cause)) }
{
    if !is_index(order, ptex) {
        return Err(NoPage::NoIndex);
    }
    if !is_valid(dword0) {
        return Err(NoPage::Empty);
    }
    let Some(size) = decode(dword0, dword1) else {
        return Err(NoPage::NoSize);
    };
    if !fits_tag(dword0, size.base) {
        return Err(NoPage::NoSegment);
    }
    match page_of(order, ptex as u32, dword0, dword1) {
        Some(page) => Ok(page),
        None => Err(NoPage::OtherGroup),
    }
}

impl PaprPage {
    /// Nothing but the number of a reason.
    fn nothing(why: u32) -> PaprPage
        ensures { result ≡ spec.nothing_said why }
    {
        PaprPage {
            vsid: 0,
            page: 0,
            real: 0,
            base_shift: 0,
            actual_shift: 0,
            key: 0,
            protection: 0,
            wimg: 0,
            one_tb: false,
            no_execute: false,
            bolted: false,
            secondary: false,
            referenced: false,
            changed: false,
            why,
        }
    }

    /// What doublewords say without an index.
    fn of_words(dword0: u64, dword1: u64, why: u32) -> PaprPage
        ensures { result ≡ spec.words_said dword0 dword1 why }
    {
        let mut said = PaprPage::nothing(why);
        if !is_valid(dword0) {
            return said;
        }
        said.key = key(dword1);
        said.protection = pp(dword1);
        said.wimg = wimg(dword1);
        said.no_execute = no_execute(dword1);
        said.bolted = bolted(dword0);
        said.secondary = secondary(dword0);
        said.referenced = dword1 & REFERENCED == REFERENCED;
        said.changed = dword1 & CHANGED == CHANGED;
        if let Some(size) = decode(dword0, dword1) {
            said.real = frame(dword1, size.actual);
            said.base_shift = size.base;
            said.actual_shift = size.actual;
        }
        said
    }
}

/// What the two doublewords of an entry say at the index `ptex` of a table of `2^order` bytes: the
/// page that it translates there, or why it translates none, and its fields. R and C are those of
/// `dword1`, as receipts and H_READ have it.
#[unsafe(no_mangle)]
pub extern "C" fn papr_decode(order: u8, ptex: u64, dword0: u64, dword1: u64) -> PaprPage
    ensures { result ≡ spec.decoded order ptex dword0 dword1 }
{
    match found_here(order, ptex, dword0, dword1) {
        Ok(page) => {
            let mut said = PaprPage::of_words(dword0, dword1, 0);
            said.vsid = page.vsid();
            said.page = page.index();
            said.one_tb = page.one_tb();
            said
        }
        Err(cause) => PaprPage::of_words(dword0, dword1, cause.number()),
    }
}
