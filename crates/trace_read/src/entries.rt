//! The page table entries that the configuration lines of a trace put into its table before the
//! first run line.
ghost use Rattle.std.specs.Prelude.{◌≡◌, ◌++◌, [], ◌∷◌, OnOk, OnErr};

use std::alloc::{AllocError, Global};
use std::marker::Model;
use table_image::ImageEntry;

/// The valid entries of an opening table, in the order of their lines.
#[derive(Drop)]
pub struct EntryLines {
    items: Vec<ImageEntry>,
}

impl Model for EntryLines {
    ghost use Rattle.std.specs.Prelude.{List};
    ghost use Rattle.table_image.specs.declared.entry.ImageEntry.{ImageEntry};

    ghost Value = { List ImageEntry };

    ghost view = { λ l. l.items.items };
}

impl EntryLines {
    /// No entry. It takes no memory; later entries are kept in `alloc`.
    pub fn new(alloc: Global) -> Self
        ensures { result ≡ [] }
    {
        EntryLines {
            items: Vec::new(alloc),
        }
    }

    /// Appends an entry. Where memory ends, the list stays as it was.
    pub fn push(&mut self, entry: ImageEntry) -> Result<(), AllocError>
        ensures ok { OnOk result (self.new ≡ self.old ++ entry ∷ []) }
        ensures err { OnErr result (self.new ≡ self.old) }
    {
        self.items.push(entry)?;
        Ok(())
    }

    pub fn as_slice(&self) -> &[ImageEntry]
        ensures { result.now ≡ self.now }
    {
        self.items.as_slice()
    }
}
