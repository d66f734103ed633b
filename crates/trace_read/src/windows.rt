//! The list of DMA windows that a trace configures, with the tests for room and for a number that
//! is taken.
ghost use Rattle.std.specs.Prelude.{◌≡◌, ◌<◌, ◌++◌, [], ◌∷◌, false, length, nat_lt};
ghost use Rattle.bus_window.specs.Windows.{IsWindow};
ghost use Rattle.trace_read.specs.Configuration.{AreWindows};
ghost use Rattle.trace_read.specs.Windows as line;

use arrayvec::ArrayVec;
use bus_window::Window;
use std::marker::Model;

/// The windows through which devices reach memory, at most four, in the order of their lines. Their
/// numbers differ.
#[derive(Drop)]
pub struct WindowLines {
    items: ArrayVec<Window, 4>,
}

impl Model for WindowLines {
    ghost use Rattle.std.specs.Prelude.{List};
    ghost use Rattle.bus_window.specs.Windows.{BusWindow};
    ghost use Rattle.trace_read.specs.Configuration.{AreWindows};

    ghost Value = { List BusWindow };

    ghost view = { λ l. l.items.items };

    ghost invariant = { λ l. AreWindows l.items.items };
}

impl WindowLines {
    /// A list without windows.
    pub fn new() -> Self
        ensures { result ≡ [] }
    {
        WindowLines {
            items: ArrayVec::new(),
        }
    }

    /// Whether there is room for one more.
    pub fn has_room(&self) -> bool
        ensures { result ≡ nat_lt (length self.now) 4 }
    {
        self.items.remaining_capacity() > 0
    }

    /// Whether a window has this number.
    pub fn has_number(&self, liobn: u32) -> bool
        ensures { result ≡ line.has_number self.now liobn }
    {
        self.items
            .as_slice()
            .iter()
            .any(|window| window.liobn() == liobn)
    }

    /// Appends a window.
    pub fn push(&mut self, window: Window)
        requires room { length self.old < 4 }
        requires possible { IsWindow window }
        requires fresh { line.has_number self.old window.liobn ≡ false }
        ensures { self.new ≡ self.old ++ window ∷ [] }
    {
        self.items.push(window);
    }

    pub fn as_slice(&self) -> &[Window]
        ensures items { result.now ≡ self.now }
        ensures windows { AreWindows self.now }
    {
        self.items.as_slice()
    }
}
