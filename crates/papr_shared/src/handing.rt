//! Registers and receipts of a call handed to C, with whether cached translations have to be
//! dropped.
ghost use Rattle.entry_model.specs.Replies.{reply_with};
ghost use Rattle.papr_shared.specs.Answers.{handed, HandsOver};

use c_layout::{PaprReceipt, PaprReply, any_stale, hand_over, put_receipts};
use entry_model::Registers;
use shared_pass::Working;

/// Puts what a call has given, and its receipts, into the caller's slots, as far as these go.
#[inline(always)]
pub fn hand_over_call(
    working: &Working,
    registers: &Registers,
    words: &mut [u64],
    receipts: &mut [PaprReceipt],
) -> PaprReply
    ensures { HandsOver
        (reply_with registers.now working.now.receipts)
        (handed words.old words.new receipts.old receipts.new result) }
{
    let made = working.receipts.as_slice();
    let room = receipts.len();
    let _put = put_receipts(made, receipts);
    hand_over(registers, made.len() as u32, any_stale(made), words, room)
}
