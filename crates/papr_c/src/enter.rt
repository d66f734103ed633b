//! H_ENTER on lent entries, checked against the list of grants.
ghost use Rattle.std.specs.Prelude.{◌≡◌};
ghost use Rattle.call_plan.specs.Checks.{h_enter_plan};
ghost use Rattle.papr_c.specs.Calls.{memory, outcome_of_call};
ghost use Rattle.c_layout.specs.Grants.{listed};
ghost use Rattle.c_layout.specs.Entries.{states_of, AreMarked};

use crate::running::run_lent;
use c_layout::{PaprEntry, PaprGrants, PaprReceipt, PaprReply, is_table};
use call_plan::enter_plan;

/// H_ENTER (LoPAR): puts the translation of a page into the table. `ptex` names the group, or under
/// H_EXACT the entry, `pteh` and `ptel` are the two doublewords, and `grants` is a list that
/// `papr_make_grants` made. The word is the entry's index.
#[tactic(auto, using(c_layout::proofs::Marks::marked_none))]
#[unsafe(no_mangle)]
pub extern "C" fn papr_h_enter(
    entries: &mut [PaprEntry],
    order: u8,
    grants: &PaprGrants,
    flags: u64,
    ptex: u64,
    pteh: u64,
    ptel: u64,
    words: &mut [u64],
    receipts: &mut [PaprReceipt],
) -> PaprReply
    ensures told { (result, memory (states_of entries.new) words.new receipts.new)
        ≡ outcome_of_call
        order
        (h_enter_plan order (listed grants.now.grants grants.now.count) flags ptex pteh ptel)
        (memory (states_of entries.old) words.old receipts.old) }
    ensures marks { AreMarked entries.old entries.new }
{
    if !is_table(entries, order) {
        return PaprReply::refused();
    }
    let plan = enter_plan(order, grants, flags, ptex, pteh, ptel);
    run_lent(entries, order, &plan, words, receipts)
}
