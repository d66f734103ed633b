//! What export and import share: how they end, with the numbers of their refusals, the number of a
//! layout, and the range of entries.
ghost use Rattle.std.specs.Prelude.{◌≡◌, ◌+◌, ◌*◌, ◌≤◌, length, nat_le, ◌&&◌};
ghost use Rattle.papr_c.specs.Transfers.{transferred, refused_at};

use table_image::Layout;

/// Why entries aren't transferred.
#[derive(Clone, Copy, Debug)]
pub enum Refusal {
    /// The arguments are out of range.
    Arguments,
    /// The layout has no such entry.
    Unheld,
    /// H_ENTER would refuse it.
    Unentered,
}

/// What became of a transfer of entries.
#[repr(C)]
#[derive(Clone, Copy)]
pub struct PaprTransfer {
    /// The index of the first entry that is refused, else 0.
    pub index: usize,
    /// 0, or the number of the refusal.
    pub refusal: u32,
}

fn refusal_number(refusal: Refusal) -> u32
    ensures { result ≡ Rattle.papr_c.specs.Transfers.refusal_number refusal }
{
    match refusal {
        Refusal::Arguments => 1,
        Refusal::Unheld => 2,
        Refusal::Unentered => 3,
    }
}

impl PaprTransfer {
    /// All entries were transferred.
    pub fn done() -> PaprTransfer
        ensures { result ≡ transferred }
    {
        PaprTransfer {
            index: 0,
            refusal: 0,
        }
    }

    /// The entry at this index is refused.
    pub fn refused(index: usize, refusal: Refusal) -> PaprTransfer
        ensures { result ≡ refused_at index refusal }
    {
        PaprTransfer {
            index,
            refusal: refusal_number(refusal),
        }
    }
}

/// The layout of a number.
pub fn layout_of(number: u8) -> Option<Layout>
    ensures { result ≡ Rattle.papr_c.specs.Transfers.layout_of number }
{
    match number {
        0 => Some(Layout::Old),
        1 => Some(Layout::New),
        _ => None,
    }
}

/// Whether so many entries from the first on are among `count` ones, and so many bytes are enough
/// for them.
pub fn is_range(count: usize, first: usize, number: usize, bytes: usize) -> bool
    ensures { result ≡ (nat_le (first + number) count && nat_le (16 * number) bytes) }
{
    first <= count && number <= count - first && number <= bytes / 16
}
