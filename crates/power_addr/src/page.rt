//! A virtual page with each part in range, made from its parts or from an effective address, and
//! its tag in page table entries.
ghost use Rattle.std.specs.Prelude.{◌≡◌, ◌%◌, ◌^◌, Some, IfSome};
ghost use Rattle.power_addr.specs.Pages.{IsPage, virtual_page, first_page, page_of_parts, page_of_address, is_vsid, is_base_shift, offset_bits, segment_code_of, tag_of};

use std::marker::Model;

/// The bits of a segment offset in a segment of 256 MB.
const SMALL_OFFSET_BITS: u32 = 28;

/// The bits of a segment offset in a segment of 1 TB.
const LARGE_OFFSET_BITS: u32 = 40;

/// The bits of a virtual address, and so of a segment's number and offset together.
const ADDRESS_BITS: u32 = 78;

/// The bits of an entry's upper doubleword that hold an abbreviated virtual page number.
const VIRTUAL_PAGE_NUMBER: u64 = 0x3FFF_FFFF_FFFF_FF80;

/// A page of the virtual address space, each of its parts in range.
#[derive(Clone, Copy, PartialEq, Eq, Debug)]
pub struct Page {
    one_tb: bool,
    vsid: u64,
    shift: u8,
    index: u64,
}

impl Model for Page {
    ghost use Rattle.power_addr.specs.Pages.{VirtualPage, IsPage};

    ghost Value = { VirtualPage };

    ghost view = { λ page. record {
      one_tb = page.one_tb;
      vsid = page.vsid;
      shift = page.shift;
      index = page.index;
    } };

    ghost invariant = { λ page. IsPage (record {
      one_tb = page.one_tb;
      vsid = page.vsid;
      shift = page.shift;
      index = page.index;
    }) };

    ghost inverse = { λ page. record {
      one_tb = page.one_tb;
      vsid = page.vsid;
      shift = page.shift;
      index = page.index;
    } };
}

impl Page {
    /// The page with these parts: `one_tb` says whether the segment is one of 1 TB, `vsid` is the
    /// segment's number, `shift` the binary logarithm of the base page size, and `index` the number
    /// of pages before it in the segment. `None` where a part is out of range.
    pub fn new(one_tb: bool, vsid: u64, shift: u8, index: u64) -> Option<Page>
        ensures page { result ≡ page_of_parts one_tb vsid shift index }
        ensures in_range { IfSome result (λ p. IsPage p) }
        ensures exact { let p = virtual_page one_tb vsid shift index in IsPage p → result ≡ Some p }
    {
        if vsid_in_range(one_tb, vsid)
            && shift_in_range(one_tb, shift)
            && index >> (offset_bits_of(one_tb) - u32::from(shift)) == 0
        {
            Some(Page {
                one_tb,
                vsid,
                shift,
                index,
            })
        } else {
            None
        }
    }

    /// The page of the segment `vsid` that holds the segment offset of the effective address `ea`.
    /// `None` where `vsid` or `shift` is out of range for a segment of that size.
    pub fn of_address(one_tb: bool, vsid: u64, shift: u8, ea: u64) -> Option<Page>
        ensures page { result ≡ page_of_address one_tb vsid shift ea }
        ensures in_range { IfSome result (λ p. IsPage p) }
    {
        if vsid_in_range(one_tb, vsid) && shift_in_range(one_tb, shift) {
            let offset = ea & ((1 << offset_bits_of(one_tb)) - 1);
            Some(Page {
                one_tb,
                vsid,
                shift,
                index: offset >> shift,
            })
        } else {
            None
        }
    }

    /// Whether the segment is one of 1 TB; it is one of 256 MB otherwise.
    pub fn one_tb(&self) -> bool
        ensures value { result ≡ self.now.one_tb }
        ensures in_range { IsPage self.now }
    {
        self.one_tb
    }

    /// The segment's number.
    pub fn vsid(&self) -> u64
        ensures value { result ≡ self.now.vsid }
        ensures in_range { IsPage self.now }
    {
        self.vsid
    }

    /// The binary logarithm of the base page size.
    pub fn shift(&self) -> u8
        ensures value { result ≡ self.now.shift }
        ensures in_range { IsPage self.now }
    {
        self.shift
    }

    /// The number of pages before this one in its segment.
    pub fn index(&self) -> u64
        ensures value { result ≡ self.now.index }
        ensures in_range { IsPage self.now }
    {
        self.index
    }

    /// B and the abbreviated virtual page number, as they are in the upper doubleword of an entry
    /// of this page, with the low seven bits 0.
    pub fn tag(&self) -> u64
        ensures value { result ≡ tag_of self.now }
        ensures in_range { IsPage self.now }
        ensures low { result % 2 ^ 7 ≡ 0 }
    {
        let segment = u128::from(self.vsid) << offset_bits_of(self.one_tb);
        let address = segment + (u128::from(self.index) << self.shift);
        let number = (address >> 16) as u64 & VIRTUAL_PAGE_NUMBER;
        segment_code(self.one_tb) << 62 | number
    }
}

/// The first page of the first segment of 256 MB, in pages of 4 KB.
impl Default for Page {
    ghost is_default = { λ page. page ≡ first_page };

    fn default() -> Self {
        Page {
            one_tb: false,
            vsid: 0,
            shift: 12,
            index: 0,
        }
    }
}

/// How many bits the offset in a segment has: 40 in one of 1 TB, else 28.
pub fn offset_bits_of(one_tb: bool) -> u32
    ensures { result ≡ offset_bits one_tb }
{
    if one_tb {
        LARGE_OFFSET_BITS
    } else {
        SMALL_OFFSET_BITS
    }
}

fn segment_code(one_tb: bool) -> u64
    ensures { result ≡ segment_code_of one_tb }
{
    if one_tb { 1 } else { 0 }
}

fn vsid_in_range(one_tb: bool, vsid: u64) -> bool
    ensures { result ≡ is_vsid one_tb vsid }
{
    vsid >> (ADDRESS_BITS - offset_bits_of(one_tb)) == 0
}

/// Whether segments of this size have base pages of `2^shift` bytes: of 4 KB, 64 KB, 16 MB, and in
/// one of 1 TB also of 16 GB.
pub fn shift_in_range(one_tb: bool, shift: u8) -> bool
    ensures { result ≡ is_base_shift one_tb shift }
{
    matches!(shift, 12 | 16 | 24) || one_tb && shift == 34
}
