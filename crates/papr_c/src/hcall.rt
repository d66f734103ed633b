//! A hypervisor call by its number, which names the plan (`call_plan`). The words of the registers
//! are its arguments, and then the slots for the words that it gives.
ghost use Rattle.std.specs.Prelude.{◌≡◌};
ghost use Rattle.papr_c.specs.Calls.{memory};
ghost use Rattle.c_layout.specs.Grants.{listed};
ghost use Rattle.papr_c.specs.Hcalls.{outcome_of_hcall, is_on_entries as has_plan};
ghost use Rattle.c_layout.specs.Entries.{states_of, AreMarked};

use crate::running::run_lent;
use c_layout::{PaprEntry, PaprGrants, PaprReceipt, PaprReply, is_table};
use call_plan::plan_of_hcall;
use papr_codes::{Hcall, Rc};

/// Whether a call is one on entries, which has a plan.
fn is_on_entries(hcall: Hcall) -> bool
    ensures { result ≡ has_plan hcall }
{
    !matches!(
        hcall,
        Hcall::GetTce | Hcall::PutTce | Hcall::Prepare | Hcall::Commit | Hcall::Other(_)
    )
}

/// A hypervisor call by its number, register 3, with its words in `args` as in registers 4 to 11.
/// The words that it gives take their place, from register 4 on. H_FUNCTION for a number that isn't
/// one of a call on entries; then nothing changes.
#[tactic(auto, using(c_layout::proofs::Marks::marked_none))]
#[unsafe(no_mangle)]
pub extern "C" fn papr_hcall(
    entries: &mut [PaprEntry],
    order: u8,
    grants: &PaprGrants,
    number: u64,
    args: &mut [u64; 8],
    receipts: &mut [PaprReceipt],
) -> PaprReply
    ensures told { (result, memory (states_of entries.new) args.new receipts.new)
        ≡ outcome_of_hcall
        order
        (listed grants.now.grants grants.now.count)
        number
        (memory (states_of entries.old) args.old receipts.old) }
    ensures marks { AreMarked entries.old entries.new }
{
    let hcall = Hcall::of_number(number);
    if !is_on_entries(hcall) {
        return PaprReply::answered(Rc::Function, 0, 0, false);
    }
    if !is_table(entries, order) {
        return PaprReply::refused();
    }
    let asked = *args;
    let plan = plan_of_hcall(order, grants, hcall, &asked);
    run_lent(entries, order, &plan, args, receipts)
}
