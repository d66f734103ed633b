//! A DMA window whose number and range were checked when it was made, and its entry for a bus
//! address.
ghost use Rattle.std.specs.Prelude.{◌≡◌, ◌≤◌, ◌<◌, ◌^◌, ◌==◌, Some, IfSome};
ghost use Rattle.bus_window.specs.Windows.{IsWindow, bus_window, window_of_parts, entry_at};

use pool_range::{ADDRESS_END, PAGE_BYTES};
use std::marker::Model;

/// The binary logarithm of the bytes of a page.
const PAGE_SHIFT: u32 = 12;

/// The most pages that a window has.
const MOST_PAGES: u64 = 1 << 14;

/// A window of a bus: `pages` pages of 4,096 bytes from the bus address `base` on.
#[derive(Clone, Copy, PartialEq, Eq, Debug)]
pub struct Window {
    liobn: u32,
    base: u64,
    pages: u32,
}

impl Model for Window {
    ghost use Rattle.bus_window.specs.Windows.{BusWindow, IsWindow, bus_window};

    ghost Value = { BusWindow };

    ghost view = { λ w. bus_window w.liobn w.base w.pages };

    ghost invariant = { λ w. IsWindow (bus_window w.liobn w.base w.pages) };

    ghost inverse = { λ w. record { liobn = w.liobn; base = w.base; pages = w.pages } };
}

/// A page at address 0: what an `ArrayVec` holds past its end.
impl Default for Window {
    ghost is_default = { λ window. window ≡ bus_window 0 0 1 };

    fn default() -> Self {
        Window {
            liobn: 0,
            base: 0,
            pages: 1,
        }
    }
}

impl Window {
    /// The window of this number, with so many pages from this bus address on. `None` exactly if
    /// the number isn't below `2^32`, the address is no multiple of 4,096, there is no page or more
    /// than 16,384, or the last ends above `2^60`.
    pub fn new(liobn: u64, base: u64, pages: u64) -> Option<Window>
        ensures window { result ≡ window_of_parts liobn base pages }
        ensures in_range { IfSome result IsWindow }
        ensures exact { IsWindow (bus_window liobn base pages)
            → result ≡ Some (bus_window liobn base pages) }
    {
        let number = u32::try_from(liobn).ok()?;
        if base % PAGE_BYTES != 0 || pages < 1 || pages > MOST_PAGES {
            return None;
        }
        let length = pages << PAGE_SHIFT;
        if base > ADDRESS_END - length {
            return None;
        }
        Some(Window {
            liobn: number,
            base,
            pages: pages as u32,
        })
    }

    /// The number by which calls name the window.
    pub fn liobn(&self) -> u32
        ensures { result ≡ self.now.liobn }
    {
        self.liobn
    }

    /// The bus address at which the window begins: a multiple of 4096, below 2^60.
    pub fn base(&self) -> u64
        ensures { result ≡ self.now.base }
    {
        self.base
    }

    /// How many pages of 4096 bytes the window has: 1 to 2^14.
    pub fn pages(&self) -> u32
        ensures { result ≡ self.now.pages }
    {
        self.pages
    }

    /// Whether this is the window's number.
    pub fn has_number(&self, liobn: u64) -> bool
        ensures { result ≡ (self.now.liobn == liobn) }
    {
        u64::from(self.liobn) == liobn
    }

    /// The entry of the page that has this bus address. `None` exactly if it lies outside the
    /// window.
    pub fn entry_at(&self, ioba: u64) -> Option<u32>
        ensures entry { result ≡ entry_at self.now ioba }
        ensures in_range { IfSome result (λ entry. entry < 2 ^ 14) }
    {
        let end = self.base + (u64::from(self.pages) << PAGE_SHIFT);
        if self.base <= ioba && ioba < end {
            Some(((ioba - self.base) >> PAGE_SHIFT) as u32)
        } else {
            None
        }
    }
}
