//! The verbs of a processor's line with their counts of words: hypervisor calls by name or number,
//! accesses, segments and masks.
ghost use Rattle.std.specs.Prelude.{◌≡◌, IfSome};
ghost use Rattle.trace_read.specs.Forms.{call_named, other_verb, verb_of, IsNamedRow, IsNamedVerb};
ghost use Rattle.trace_read.specs.Acts.{takes};

use crate::forms::is_name;
use authority_mask::MaskName;
use papr_codes::Hcall;
use storage_prot::Want;

/// What a processor does, as the word after it says.
#[derive(Clone, Copy)]
pub enum Verb {
    /// A hypervisor call by its name, and how many arguments it has.
    Named(Hcall, u8),
    /// `hcall`: a hypervisor call by its number.
    Numbered,
    /// `load`, `store` or `fetch`
    Access(Want),
    /// `dmaread`, or else `dmawrite`
    Device { write: bool },
    /// `slbmte`
    SlbMte,
    /// `slbclear`
    SlbClear,
    /// `amr` or `iamr`
    SetMask(MaskName),
}

impl Verb {
    /// Whether a line of this kind may have so many words.
    pub fn takes(&self, count: usize) -> bool
        ensures { result ≡ takes self.now count }
    {
        match self {
            Verb::Named(_, args) => count == usize::from(*args) + 2,
            Verb::Numbered => 3 <= count && count <= 11,
            Verb::Access(_) | Verb::Device { .. } | Verb::SlbMte => count == 4,
            Verb::SlbClear => count == 2,
            Verb::SetMask(_) => count == 3,
        }
    }
}

/// The call that a word names, and how many arguments it has.
#[tactic(auto, unfolding(crate::specs::Forms::call_named))]
fn call(word: &[u8]) -> Option<(Hcall, u8)>
    ensures row { result ≡ call_named word.now }
    ensures named { IfSome result IsNamedRow }
{
    [
        (Hcall::Enter, 4u8),
        (Hcall::Remove, 3),
        (Hcall::Protect, 3),
        (Hcall::Read, 2),
        (Hcall::ClearRef, 2),
        (Hcall::ClearMod, 2),
        (Hcall::BulkRemove, 8),
        (Hcall::PutTce, 3),
        (Hcall::GetTce, 2),
        (Hcall::Prepare, 2),
        (Hcall::Commit, 2),
    ]
    .iter()
    .copied()
    .find(|row| row.0.name().as_bytes() == word)
}

#[tactic(auto, unfolding(crate::specs::Forms::other_verb))]
fn other(word: &[u8]) -> Option<Verb>
    ensures verb { result ≡ other_verb word.now }
    ensures named { IfSome result IsNamedVerb }
{
    if is_name(word, "hcall") {
        Some(Verb::Numbered)
    } else if is_name(word, "load") {
        Some(Verb::Access(Want::Load))
    } else if is_name(word, "store") {
        Some(Verb::Access(Want::Store))
    } else if is_name(word, "fetch") {
        Some(Verb::Access(Want::Fetch))
    } else if is_name(word, "dmaread") {
        Some(Verb::Device { write: false })
    } else if is_name(word, "dmawrite") {
        Some(Verb::Device { write: true })
    } else if is_name(word, "slbmte") {
        Some(Verb::SlbMte)
    } else if is_name(word, "slbclear") {
        Some(Verb::SlbClear)
    } else if is_name(word, "amr") {
        Some(Verb::SetMask(MaskName::Amr))
    } else if is_name(word, "iamr") {
        Some(Verb::SetMask(MaskName::Iamr))
    } else {
        None
    }
}

/// What a word says that a processor does.
#[tactic(auto, unfolding(crate::specs::Forms::verb_of))]
pub fn named_verb(word: &[u8]) -> Option<Verb>
    ensures verb { result ≡ verb_of word.now }
    ensures named { IfSome result IsNamedVerb }
{
    match call(word) {
        Some((hcall, args)) => Some(Verb::Named(hcall, args)),
        None => other(word),
    }
}
