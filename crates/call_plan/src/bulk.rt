//! The words of H_BULK_REMOVE (LoPAR): what a pair asks for, and the response that replaces its
//! first word.
ghost use Rattle.hpte_fields.specs.TableSize.{IsTableOrder};
ghost use Rattle.std.specs.Prelude.{◌≡◌, ◌≤◌, ◌+◌, ◌%◌, ◌++◌, length, if◌then◌else◌};
ghost use Rattle.entry_model.specs.Receipt.{is_worn};
ghost use Rattle.call_plan.specs.Bulk as plans;

use entry_model::{Answer, Receipt, Registers, ReplyWords, Test};
use hpte_fields::entry_count;
use papr_codes::Rc;

/// The type of a pair's first word.
const TYPE: u64 = 0xC000_0000_0000_0000;

/// The type of a request to remove an entry.
const REQUEST: u64 = 0x4000_0000_0000_0000;

/// The type that ends the list.
const END: u64 = 0xC000_0000_0000_0000;

/// The flags of a request, which say how its second word tests the entry.
const FLAGS: u64 = 0x0300_0000_0000_0000;

/// No test.
const ABSOLUTE: u64 = 0x0000_0000_0000_0000;

/// No bit of the second word may be set in doubleword 0.
const AND_COND: u64 = 0x0100_0000_0000_0000;

/// The second word has to be the abbreviated virtual page number.
const AVPN: u64 = 0x0200_0000_0000_0000;

/// The index of the entry, in a request and in its response.
const INDEX: u64 = 0x00FF_FFFF_FFFF_FFFF;

/// The top byte of the response to a pair whose entry was removed. As in each of these, its low two
/// bits are left to the flags.
const REMOVED: u8 = 0x80;

/// The top byte where the entry is empty or fails the test.
const NOT_FOUND: u8 = 0x90;

/// The top byte of an ill-formed pair.
const ILL_FORMED: u8 = 0xA0;

/// The top byte where the entry's stamp is at its last value.
const WORN: u8 = 0xB0;

/// R of the entry that was removed, in the top byte.
const REFERENCED: u8 = 0x08;

/// C of the entry that was removed, in the top byte.
const CHANGED: u8 = 0x04;

/// What a pair of words asks.
#[derive(Clone, Copy)]
pub enum Asked {
    /// No more: the list ends here.
    End,
    /// To remove the entry where it passes the test.
    Remove { entry: u32, test: Test },
    /// Nothing that can be done, since the pair is ill formed.
    Refused,
}

/// The test that the flags ask for, by the pair's second word. No test has both flags.
#[tactic(auto, using(crate::proofs::RequestBits::flags_bits))]
fn test_of(request: u64, word: u64) -> Option<Test>
    ensures { result ≡ plans.test_by (plans.flags_of request) word }
{
    let (avpn, andcond) = match request & FLAGS {
        ABSOLUTE => (None, None),
        AND_COND => (None, Some(word)),
        AVPN => (Some(word), None),
        _ => return None,
    };
    Some(Test { avpn, andcond })
}

/// What a pair asks of a table of this order.
#[tactic(auto, using(crate::proofs::RequestBits::type_bits), unfolding(crate::specs::Bulk::asked_by))]
pub fn asked_by(order: u8, request: u64, word: u64) -> Asked
    requires order { IsTableOrder order }
    ensures { result ≡ plans.asked_by order (record { request = request; word = word }) }
{
    if request & TYPE == END {
        return Asked::End;
    }
    let index = request & INDEX;
    if request & TYPE != REQUEST || index >= u64::from(entry_count(order)) {
        return Asked::Refused;
    }
    match test_of(request, word) {
        Some(test) => Asked::Remove {
            entry: index as u32,
            test,
        },
        None => Asked::Refused,
    }
}

/// The top byte of the response that a receipt gives.
fn status(receipt: &Receipt) -> u8
    ensures value { result
        ≡ (if is_worn receipt.now.answer
        then plans.worn_status
        else plans.status_of receipt.now.answer receipt.now.before) }
    ensures flags_clear { result % 4 ≡ 0 }
{
    match receipt.answer {
        Answer::NotFound => NOT_FOUND,
        Answer::Worn => WORN,
        _ => {
            let referenced = if receipt.before.referenced {
                REFERENCED
            } else {
                0
            };
            let changed = if receipt.before.changed { CHANGED } else { 0 };
            REMOVED | referenced | changed
        }
    }
}

/// The response to a request: this top byte, with the request's flags and index.
fn response(status: u8, request: u64) -> u64
    requires { status % 4 ≡ 0 }
    ensures { result ≡ plans.response status request }
{
    u64::from(status) << 56 | request & (FLAGS | INDEX)
}

/// The response to a request whose entry gave this receipt.
#[inline]
pub fn answered(receipt: &Receipt, request: u64) -> u64
    ensures { result
        ≡ plans.response
        (if is_worn receipt.now.answer
        then plans.worn_status
        else plans.status_of receipt.now.answer receipt.now.before)
        request }
{
    response(status(receipt), request)
}

/// The response to an ill-formed request.
#[inline]
pub fn ill_formed(request: u64) -> u64
    ensures { result ≡ plans.response plans.ill_formed request }
{
    response(ILL_FORMED, request)
}

/// The code, and the words, followed by those that stay as they were.
fn ended(rc: Rc, mut words: ReplyWords, unchanged: &[u64]) -> Registers
    requires { length words + length unchanged.now ≤ 8 }
    ensures { result ≡ record { rc = rc; words = words ++ unchanged.now } }
{
    for word in unchanged {
        words.push(*word);
    }
    Registers { rc, words }
}

/// The reply of a bulk removal with these receipts: the code, and all eight words, in which a
/// response replaces each request that was taken up.
#[inline(always)]
pub fn removal_registers(order: u8, pairs: &[u64; 8], receipts: &[Receipt]) -> Registers
    requires order { IsTableOrder order }
    ensures { (result.rc, result.words)
        ≡ plans.bulk_told order (plans.pairs_of pairs.now) receipts.now }
{
    let mut words = ReplyWords::new();
    for i in 0..4 {
        let (request, word) = (pairs[2 * i], pairs[2 * i + 1]);
        match asked_by(order, request, word) {
            Asked::End => return ended(Rc::Success, words, &pairs[2 * i..]),
            Asked::Refused => {
                words.push(response(ILL_FORMED, request));
                return ended(Rc::Parameter, words, &pairs[2 * i + 1..]);
            }
            Asked::Remove { .. } => {
                if i >= receipts.len() {
                    return ended(Rc::Hardware, words, &pairs[2 * i..]);
                }
                let receipt = &receipts[i];
                words.push(response(status(receipt), request));
                if receipt.answer == Answer::Worn {
                    return ended(Rc::Hardware, words, &pairs[2 * i + 1..]);
                }
                words.push(word);
            }
        }
    }
    ended(Rc::Success, words, &[])
}
