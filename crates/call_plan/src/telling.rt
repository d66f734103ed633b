//! The return code and the words of a reply, from the receipts of a plan's operations.
ghost use Rattle.std.specs.Prelude.{◌≡◌, ◌≤◌, length, flat_map};
ghost use Rattle.entry_model.specs.Trial.{ending_of};
ghost use Rattle.call_plan.specs.Enter.{told_by_ending};
ghost use Rattle.call_plan.specs.Single.{both_words, code_and_words};
ghost use Rattle.call_plan.specs.ShownWords.{words_shown};
ghost use Rattle.call_plan.specs.Plans.{told_of, goes_of, most_of};

use crate::plan::Told;
use crate::shown::ShownWords;
use entry_model::{Answer, Receipt, Registers, ReplyWords};
use papr_codes::Rc;

/// The code, and the words, by the receipt of the entry that wasn't taken, if there was one.
#[inline]
pub fn entered_registers(ending: &Option<Receipt>) -> Registers
    ensures { (result.rc, result.words) ≡ told_by_ending ending.now }
{
    match ending {
        None => Registers::with_code(Rc::PtegFull),
        Some(receipt) => match receipt.answer {
            Answer::Worn => Registers::with_code(Rc::Hardware),
            _ => {
                let mut registers = Registers::with_code(Rc::Success);
                registers.words.push(u64::from(receipt.entry));
                registers
            }
        },
    }
}

/// The return code of the receipt's answer, and the words of a call that shows these.
#[inline]
pub fn answered_registers(receipt: &Receipt, shown: ShownWords) -> Registers
    ensures { (result.rc, result.words)
        ≡ code_and_words receipt.now.answer (words_shown shown receipt.now) }
{
    match receipt.answer {
        Answer::NotFound => Registers::with_code(Rc::NotFound),
        Answer::Worn => Registers::with_code(Rc::Hardware),
        _ => Registers {
            rc: Rc::Success,
            words: shown.words(receipt),
        },
    }
}

/// Both doublewords of each entry that was read, with R and C.
fn words_read(receipts: &[Receipt]) -> ReplyWords
    requires { length receipts.now ≤ 4 }
    ensures { result ≡ flat_map both_words receipts.now }
{
    let mut words = ReplyWords::new();
    for receipt in receipts {
        let (dword0, dword1) = receipt.before.words();
        words.push(dword0);
        words.push(dword1);
    }
    words
}

/// What the receipts of a trial tell, of which `ending` is the one after which it didn't go on, if
/// there was one.
#[inline]
pub fn told_registers(told: Told, ending: &Option<Receipt>, receipts: &[Receipt]) -> Registers
    requires some { 1 ≤ length receipts.now }
    requires few { length receipts.now ≤ most_of told }
    requires ending { ending.now ≡ ending_of (goes_of told) receipts.now }
    ensures { (result.rc, result.words) ≡ told_of told receipts.now }
{
    match told {
        Told::Entered => entered_registers(ending),
        Told::Answer { shown } => answered_registers(&receipts[0], shown),
        Told::Contents => Registers {
            rc: Rc::Success,
            words: words_read(receipts),
        },
    }
}
