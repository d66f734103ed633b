//! The rest of a hypervisor call that is held up, from its first operation that isn't made yet.
ghost use Rattle.papr_shared.specs.Answers.{handed};
ghost use Rattle.papr_shared.specs.Calls.{IsAgain};

use crate::trying::go_on;
use c_layout::{PaprReceipt, PaprReply};
use shared_pass::PaprPass;
use std::alloc::Global;

/// Goes on with the call of this pass that is held up. The words and the receipts are those of the
/// whole call, from the first slot on.
#[unsafe(no_mangle)]
pub extern "C" fn papr_again(
    alloc: Global,
    pass: &mut PaprPass,
    words: &mut [u64],
    receipts: &mut [PaprReceipt],
) -> PaprReply
    ensures { IsAgain
        pass.old.pointer.held
        pass.new.pointer.held
        (handed words.old words.new receipts.old receipts.new result) }
{
    let Some(mut working) = pass.take(alloc) else {
        return PaprReply::refused();
    };
    let reply = go_on(&mut working, words, receipts);
    pass.put(working);
    reply
}
