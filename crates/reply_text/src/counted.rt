//! The nine counts of a summary, each with its word and with the replies that it counts.
ghost use Rattle.std.specs.Prelude.{◌≡◌};
ghost use Rattle.reply_text.specs.Summary.{all_counted, counted_word, counts_code, counts_end, counts_kind};

use crate::kind::ReplyKind;
use entry_model::{By, Outcome};
use papr_codes::Rc;

/// What the summary of a run counts of the replies, in its order.
#[derive(Clone, Copy)]
pub enum Counted {
    /// Hypervisor calls.
    Hcalls,
    /// Those answered H_SUCCESS.
    Success,
    /// Those answered H_PTEG_FULL.
    Full,
    /// Those answered H_NOT_FOUND.
    NotFound,
    /// Accesses to memory.
    Accesses,
    /// Those that ended at a machine address.
    At,
    /// Those that an entry's protection refused.
    Denied,
    /// Those that no entry translated.
    NoPage,
    /// Those by a cached translation.
    Hits,
}

impl Counted {
    /// All, in the order of the summary.
    pub fn all() -> [Counted; 9]
        ensures { result ≡ all_counted }
    {
        [
            Counted::Hcalls,
            Counted::Success,
            Counted::Full,
            Counted::NotFound,
            Counted::Accesses,
            Counted::At,
            Counted::Denied,
            Counted::NoPage,
            Counted::Hits,
        ]
    }

    /// The word of its row.
    pub fn word(&self) -> &'static str
        ensures { result.now ≡ counted_word self.now }
    {
        match self {
            Counted::Hcalls => "hcalls",
            Counted::Success => "success",
            Counted::Full => "full",
            Counted::NotFound => "notfound",
            Counted::Accesses => "accesses",
            Counted::At => "at",
            Counted::Denied => "denied",
            Counted::NoPage => "nopage",
            Counted::Hits => "hits",
        }
    }

    /// Whether a reply of this kind is counted.
    pub fn counts(&self, kind: ReplyKind) -> bool
        ensures { result ≡ counts_kind self.now kind }
    {
        match kind {
            ReplyKind::Call(code) => self.counts_code(code),
            ReplyKind::Access(outcome, by) => self.counts_end(outcome, by),
            ReplyKind::Other => false,
        }
    }

    /// Whether a call with this code is counted.
    fn counts_code(&self, code: Rc) -> bool
        ensures { result ≡ counts_code self.now code }
    {
        match self {
            Counted::Hcalls => true,
            Counted::Success => matches!(code, Rc::Success),
            Counted::Full => matches!(code, Rc::PtegFull),
            Counted::NotFound => matches!(code, Rc::NotFound),
            _ => false,
        }
    }

    /// Whether an access that ended so is counted.
    fn counts_end(&self, outcome: Outcome, by: Option<By>) -> bool
        ensures { result ≡ counts_end self.now outcome by }
    {
        match self {
            Counted::Accesses => true,
            Counted::At => matches!(outcome, Outcome::At(_)),
            Counted::Denied => matches!(outcome, Outcome::Denied),
            Counted::NoPage => matches!(outcome, Outcome::NoPage),
            Counted::Hits => matches!(by, Some(By::Hit)),
            _ => false,
        }
    }
}
