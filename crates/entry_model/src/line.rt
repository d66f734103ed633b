//! What a processor's translation cache keeps of a page table entry whose translation it used.
ghost use Rattle.std.specs.Prelude.{◌≡◌};
ghost use Rattle.entry_model.specs.CachedLines.{blank_line};

use power_addr::Page;

/// One cached translation: the page, and the entry that translated it, at the stamp and with the
/// doublewords that the entry had then.
#[derive(Clone, Copy, PartialEq, Eq, Debug)]
pub struct Line {
    /// The virtual page that the entry translated.
    pub page: Page,
    /// The entry's index in its table.
    pub entry: u32,
    /// The entry's stamp when it was cached.
    pub stamp: u32,
    /// Doubleword 0 as it was then.
    pub dword0: u64,
    /// Doubleword 1, with R and C clear.
    pub dword1: u64,
}

/// What a set of cached translations holds past its end.
impl Default for Line {
    ghost is_default = { λ line. line ≡ blank_line };

    fn default() -> Self {
        Line {
            page: Page::default(),
            entry: 0,
            stamp: 0,
            dword0: 0,
            dword1: 0,
        }
    }
}
