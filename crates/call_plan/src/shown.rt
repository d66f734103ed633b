//! Which doublewords of an entry a call returns: none by H_PROTECT, the second by H_CLEAR_REF and
//! H_CLEAR_MOD, both by H_REMOVE.
ghost use Rattle.std.specs.Prelude.{◌≡◌};
ghost use Rattle.call_plan.specs.ShownWords.{words_shown};

use entry_model::{Receipt, ReplyWords};

/// The doublewords of the entry as it was that a reply shows.
#[derive(Clone, Copy)]
pub enum ShownWords {
    Neither,
    Second,
    Both,
}

impl ShownWords {
    /// Of the doublewords of a receipt's entry, as it was, those that are shown.
    pub fn words(self, receipt: &Receipt) -> ReplyWords
        ensures { result ≡ words_shown self receipt.now }
    {
        let (dword0, dword1) = receipt.before.words();
        let mut words = ReplyWords::new();
        match self {
            ShownWords::Neither => {}
            ShownWords::Second => words.push(dword1),
            ShownWords::Both => {
                words.push(dword0);
                words.push(dword1);
            }
        }
        words
    }
}
