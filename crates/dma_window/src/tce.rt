//! TCEs as words: address, permissions and the grant of the page, and the doublewords of the page
//! table entry that keeps a TCE.
ghost use Rattle.std.specs.Prelude.{◌≡◌, ◌+◌};
ghost use Rattle.entry_model.specs.Receipt.{IsNormal};
ghost use Rattle.entry_model.specs.Reply.{no_test};
ghost use Rattle.entry_model.specs.declared.operation.Op.TheVariants.{Enter, Remove};
ghost use Rattle.dma_window.specs.Entries as entries;
ghost use Rattle.dma_window.specs.Pages.{is_ram};

use entry_model::{EntryState, NO_TEST, Op};
use frame_grants::Kind;
use hpte_fields::VALID;
use page_grants::GrantedMemory;
use pool_range::PAGE_BYTES;

/// The logical address of the page.
const ADDRESS: u64 = 0x0FFF_FFFF_FFFF_F000;

/// A device may read the page.
const READ: u64 = 0x1;

/// A device may write the page.
const WRITE: u64 = 0x2;

/// The permissions as doubleword 0 of the entry keeps them.
const KEPT_READ: u64 = 0x08;

const KEPT_WRITE: u64 = 0x10;

/// M, in doubleword 1: the page is coherent.
const COHERENT: u64 = 0x10;

/// The logical address of a TCE.
pub fn address(tce: u64) -> u64
    ensures { result ≡ entries.address_of tce }
{
    tce & ADDRESS
}

/// Whether a TCE permits a write, or a read.
pub fn permits(tce: u64, write: bool) -> bool
    ensures { result ≡ entries.permits tce write }
{
    let permission = if write { WRITE } else { READ };
    tce & permission == permission
}

/// The TCE that an entry keeps: 0 where the entry is empty. LoPAR's word has more bits; those that
/// aren't the address's or a permission's are 0.
pub fn tce_of(state: &EntryState) -> u64
    ensures { result ≡ entries.tce_of state.now }
{
    if !state.valid {
        return 0;
    }
    let read = if state.dword0 & KEPT_READ == KEPT_READ {
        READ
    } else {
        0
    };
    let write = if state.dword0 & KEPT_WRITE == KEPT_WRITE {
        WRITE
    } else {
        0
    };
    state.dword1 & ADDRESS | read | write
}

/// What empties an entry.
pub fn removal() -> Op
    ensures op { result ≡ Remove no_test }
    ensures normal { IsNormal result }
{
    Op::Remove { test: NO_TEST }
}

/// What enters a TCE into an empty entry.
#[tactic(auto, using(crate::proofs::KeptWords::kept_words_normal))]
pub fn entering(tce: u64) -> Op
    ensures op { result ≡ Enter (entries.first_word tce) (entries.second_word tce) }
    ensures normal { IsNormal result }
{
    Op::Enter {
        dword0: first_word(tce),
        dword1: second_word(tce),
    }
}

/// Doubleword 0 of the entry that keeps a TCE.
fn first_word(tce: u64) -> u64
    ensures { result ≡ entries.first_word tce }
{
    let read = if permits(tce, false) { KEPT_READ } else { 0 };
    let write = if permits(tce, true) { KEPT_WRITE } else { 0 };
    VALID + read + write
}

/// Doubleword 1 of the entry that keeps a TCE.
fn second_word(tce: u64) -> u64
    ensures { result ≡ entries.second_word tce }
{
    address(tce) | COHERENT
}

/// Whether one grant of ram holds the page at this logical address.
#[tactic(auto, unfolding(crate::specs::Pages::is_ram))]
pub fn is_ram<G: GrantedMemory>(grants: &G, page: u64) -> bool
    ensures { result ≡ is_ram (G.grants grants.now) page }
{
    match grants.machine_of(page, PAGE_BYTES) {
        Some((_, Kind::Ram)) => true,
        _ => false,
    }
}
