//! H_REMOVE, H_PROTECT, H_CLEAR_REF and H_CLEAR_MOD on one lent entry.
ghost use Rattle.std.specs.Prelude.{◌≡◌};
ghost use Rattle.call_plan.specs.Single.{h_remove_plan, h_protect_plan, h_clear_ref_plan, h_clear_mod_plan};
ghost use Rattle.papr_c.specs.Calls.{memory, outcome_of_call};
ghost use Rattle.c_layout.specs.Entries.{states_of, AreMarked};

use crate::running::run_lent;
use c_layout::{PaprEntry, PaprReceipt, PaprReply, is_table};
use call_plan::{clear_mod_plan, clear_ref_plan, protect_plan, remove_plan};

/// H_REMOVE (LoPAR): empties the entry `ptex` where it passes the test that `flags` ask for, by
/// `avpn`. The words are its two doublewords before.
#[tactic(auto, using(c_layout::proofs::Marks::marked_none))]
#[inline(always)]
#[unsafe(no_mangle)]
pub extern "C" fn papr_h_remove(
    entries: &mut [PaprEntry],
    order: u8,
    flags: u64,
    ptex: u64,
    avpn: u64,
    words: &mut [u64],
    receipts: &mut [PaprReceipt],
) -> PaprReply
    ensures told { (result, memory (states_of entries.new) words.new receipts.new)
        ≡ outcome_of_call
        order
        (h_remove_plan order flags ptex avpn)
        (memory (states_of entries.old) words.old receipts.old) }
    ensures marks { AreMarked entries.old entries.new }
{
    if !is_table(entries, order) {
        return PaprReply::refused();
    }
    let plan = remove_plan(order, flags, ptex, avpn);
    run_lent(entries, order, &plan, words, receipts)
}

/// H_PROTECT (LoPAR): gives the entry `ptex` the protection in `flags`, where it passes the test by
/// `avpn` that they ask for. There are no words.
#[tactic(auto, using(c_layout::proofs::Marks::marked_none))]
#[inline(always)]
#[unsafe(no_mangle)]
pub extern "C" fn papr_h_protect(
    entries: &mut [PaprEntry],
    order: u8,
    flags: u64,
    ptex: u64,
    avpn: u64,
    words: &mut [u64],
    receipts: &mut [PaprReceipt],
) -> PaprReply
    ensures told { (result, memory (states_of entries.new) words.new receipts.new)
        ≡ outcome_of_call
        order
        (h_protect_plan order flags ptex avpn)
        (memory (states_of entries.old) words.old receipts.old) }
    ensures marks { AreMarked entries.old entries.new }
{
    if !is_table(entries, order) {
        return PaprReply::refused();
    }
    let plan = protect_plan(order, flags, ptex, avpn);
    run_lent(entries, order, &plan, words, receipts)
}

/// H_CLEAR_REF (LoPAR): clears R of the entry `ptex`. The word is its doubleword 1 before. `flags`
/// are ignored.
#[tactic(auto, using(c_layout::proofs::Marks::marked_none))]
#[inline(always)]
#[unsafe(no_mangle)]
pub extern "C" fn papr_h_clear_ref(
    entries: &mut [PaprEntry],
    order: u8,
    _flags: u64,
    ptex: u64,
    words: &mut [u64],
    receipts: &mut [PaprReceipt],
) -> PaprReply
    ensures told { (result, memory (states_of entries.new) words.new receipts.new)
        ≡ outcome_of_call
        order
        (h_clear_ref_plan order ptex)
        (memory (states_of entries.old) words.old receipts.old) }
    ensures marks { AreMarked entries.old entries.new }
{
    if !is_table(entries, order) {
        return PaprReply::refused();
    }
    let plan = clear_ref_plan(order, ptex);
    run_lent(entries, order, &plan, words, receipts)
}

/// H_CLEAR_MOD (LoPAR): clears C of the entry `ptex`. The word is its doubleword 1 before. `flags`
/// are ignored.
#[tactic(auto, using(c_layout::proofs::Marks::marked_none))]
#[inline(always)]
#[unsafe(no_mangle)]
pub extern "C" fn papr_h_clear_mod(
    entries: &mut [PaprEntry],
    order: u8,
    _flags: u64,
    ptex: u64,
    words: &mut [u64],
    receipts: &mut [PaprReceipt],
) -> PaprReply
    ensures told { (result, memory (states_of entries.new) words.new receipts.new)
        ≡ outcome_of_call
        order
        (h_clear_mod_plan order ptex)
        (memory (states_of entries.old) words.old receipts.old) }
    ensures marks { AreMarked entries.old entries.new }
{
    if !is_table(entries, order) {
        return PaprReply::refused();
    }
    let plan = clear_mod_plan(order, ptex);
    run_lent(entries, order, &plan, words, receipts)
}
