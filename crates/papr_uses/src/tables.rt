//! Callers of the calls and the walk on a plain page table: H_ENTER, then H_READ or H_REMOVE; and
//! the first entry of a page.
ghost use Rattle.std.specs.Prelude.{◌≡◌, ◌<◌, ◌+◌, ◌-◌, ◌^◌, false, Some, [], ◌∷◌, find, slice_set};
ghost use Rattle.hpte_fields.specs.TableSize.{entry_count};
ghost use Rattle.std.specs.List.{AllByRecursion};
ghost use Rattle.papr_codes.specs.declared.codes.Rc.TheVariants.{Success};
ghost use Rattle.hpte_fields.specs.Fields.{normal_words};
ghost use Rattle.entry_model.specs.State.{empty_state};
ghost use Rattle.entry_model.specs.Run.{state_at};
ghost use Rattle.hpt_walk.specs.Laws.{IsEntryState};
ghost use Rattle.hpt_walk.specs.Translations.{translations, is_paired};
ghost use Rattle.hpt_walk.specs.Walk.{walk_entries};

use authority_mask::Masks;
use entry_model::{EntryStore, HReply};
use h_enter::enter_words;
use h_update::{h_read, h_remove};
use hpt_walk::{walk, walk_finds_first};
use papr_table::PlainTable;
use power_addr::Page;
use storage_prot::Want;

/// H_EXACT.
const EXACT: u64 = 0x80_0000_0000;

/// Enters words into an empty entry, and reads it: what is read is what was entered.
pub fn enter_and_read(table: &mut PlainTable, index: u64, dword0: u64, dword1: u64) -> HReply
    requires in_table { index < entry_count table.old.order }
    requires normal { normal_words dword0 dword1 ≡ Some (dword0, dword1) }
    requires empty { (state_at table.old.states index).valid ≡ false }
    requires fresh { (state_at table.old.states index).stamp < 2 ^ 32 - 1 }
    ensures code { result.rc ≡ Success }
    ensures words { result.words ≡ dword0 ∷ dword1 ∷ [] }
    ensures order { table.new.order ≡ table.old.order }
{
    let _entered = enter_words(table, EXACT, index, dword0, dword1);
    h_read(table, 0, index)
}

/// Enters words into an empty entry, and removes them: the entry is empty again, two stamps later.
pub fn enter_and_remove(table: &mut PlainTable, index: u64, dword0: u64, dword1: u64) -> HReply
    requires in_table { index < entry_count table.old.order }
    requires normal { normal_words dword0 dword1 ≡ Some (dword0, dword1) }
    requires empty { (state_at table.old.states index).valid ≡ false }
    requires fresh { (state_at table.old.states index).stamp + 1 < 2 ^ 32 - 1 }
    ensures code { result.rc ≡ Success }
    ensures words { result.words ≡ dword0 ∷ dword1 ∷ [] }
    ensures order { table.new.order ≡ table.old.order }
    ensures again { let stamp = (state_at table.old.states index).stamp + 2 in
        table.new.states ≡ slice_set table.old.states index (empty_state stamp) }
{
    let _entered = enter_words(table, EXACT, index, dword0, dword1);
    h_remove(table, 0, index, 0)
}

/// The first entry that translates a page, in the order of a walk, if one does.
pub fn entry_of_page(table: &mut PlainTable, page: &Page) -> Option<u32>
    requires { AllByRecursion IsEntryState table.old.states }
    ensures { let ts = translations table.old.order table.old.states in
        result ≡ find (is_paired ts page.now) (walk_entries table.old.order page.now) }
{
    let _order = table.order();
    let _vsid = page.vsid();
    walk_finds_first();
    let answer = walk(table, page, Want::Load, false, false, Masks::default());
    match answer.found {
        Some(receipt) => Some(receipt.entry),
        None => None,
    }
}
