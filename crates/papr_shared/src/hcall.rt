//! The choice of a hypervisor call on the running table by its number: the words of the registers
//! are its arguments, and then the slots for the words that it gives.
ghost use Rattle.c_layout.specs.Grants.{listed};
ghost use Rattle.papr_shared.specs.Answers.{handed};
ghost use Rattle.papr_shared.specs.Calls.{IsCall, numbered_plan};

use crate::trying::begin;
use c_layout::{PaprGrants, PaprReceipt, PaprReply};
use call_plan::plan_of_hcall;
use papr_codes::Hcall;
use shared_pass::PaprPass;
use std::alloc::Global;

/// A hypervisor call by its number, register 3, with its words in `args` as in registers 4 to 11.
/// The words that it gives take their place, from register 4 on. H_FUNCTION for a number that isn't
/// one of a call on entries.
#[unsafe(no_mangle)]
pub extern "C" fn papr_try_hcall(
    alloc: Global,
    pass: &mut PaprPass,
    grants: &PaprGrants,
    number: u64,
    args: &mut [u64; 8],
    receipts: &mut [PaprReceipt],
) -> PaprReply
    ensures { let list = listed grants.now.grants grants.now.count in
        IsCall
        (numbered_plan list number args.old)
        pass.old.pointer.held
        pass.new.pointer.held
        (handed args.old args.new receipts.old receipts.new result) }
{
    let Some(mut working) = pass.take(alloc) else {
        return PaprReply::refused();
    };
    let asked = *args;
    let plan = plan_of_hcall(working.order(), grants, Hcall::of_number(number), &asked);
    let reply = begin(&mut working, &plan, args, receipts);
    pass.put(working);
    reply
}
