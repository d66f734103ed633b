//! The run of H_BULK_REMOVE on lent entries: each request is answered in its own place, and the
//! words of pairs that weren't taken up are copied.
ghost use Rattle.std.specs.Prelude.{◌≡◌, ◌≤◌, true, length, min, drop};
ghost use Rattle.papr_codes.specs.ReturnCodes.{rc_code};
ghost use Rattle.c_layout.specs.Slots.{placed};
ghost use Rattle.c_layout.specs.Tables.{is_table};
ghost use Rattle.call_plan.specs.Bulk.{h_bulk_remove_plan};
ghost use Rattle.papr_c.specs.Calls.{memory, outcome_of_call};
ghost use Rattle.c_layout.specs.Entries.{states_of, AreMarked};

use crate::trying::make;
use c_layout::{PaprEntry, PaprReceipt, PaprReply, filled_count, is_stale, put_word};
use call_plan::{Asked, answered, asked_by, ill_formed};
use entry_model::{Answer, Op};
use papr_codes::Rc;

/// Puts the words from one on into the caller's slots, as far as these go: those of the pairs that
/// weren't taken up.
fn put_rest(pairs: &[u64; 8], first: usize, words: &mut [u64])
    requires { first ≤ 8 }
    ensures { words.new ≡ placed words.old first (drop first pairs.now) }
{
    for i in first..8 {
        put_word(pairs[i], words, i);
    }
}

/// Ends a bulk removal: the words from one on stay as they were asked, and so many entries were
/// tried.
fn ended(
    rc: Rc,
    pairs: &[u64; 8],
    first: usize,
    tried: u32,
    stale: bool,
    words: &mut [u64],
    room: usize,
) -> PaprReply
    requires { first ≤ 8 }
    ensures reply { result
        ≡ record {
          rc = rc_code rc;
          words = min (length words.old) 8;
          receipts = min room tried;
          stale = stale;
        } }
    ensures words { words.new ≡ placed words.old first (drop first pairs.now) }
{
    let filled = filled_count(words.len(), 8);
    put_rest(pairs, first, words);
    PaprReply::answered(rc, filled, filled_count(room, tried), stale)
}

/// Removes the entries that pairs of words ask for, one after the other. Words and receipts are put
/// straight into the caller's slots.
pub fn remove_pairs(
    entries: &mut [PaprEntry],
    order: u8,
    pairs: &[u64; 8],
    words: &mut [u64],
    receipts: &mut [PaprReceipt],
) -> PaprReply
    requires table { is_table order (states_of entries.old) ≡ true }
    ensures told { (result, memory (states_of entries.new) words.new receipts.new)
        ≡ outcome_of_call
        order
        (h_bulk_remove_plan order pairs.now)
        (memory (states_of entries.old) words.old receipts.old) }
    ensures marks { AreMarked entries.old entries.new }
{
    let room = receipts.len();
    let mut stale = false;
    for i in 0..4 {
        let (request, word) = (pairs[2 * i], pairs[2 * i + 1]);
        let tried = i as u32;
        match asked_by(order, request, word) {
            Asked::End => return ended(Rc::Success, pairs, 2 * i, tried, stale, words, room),
            Asked::Refused => {
                put_word(ill_formed(request), words, 2 * i);
                return ended(Rc::Parameter, pairs, 2 * i + 1, tried, stale, words, room);
            }
            Asked::Remove { entry, test } => {
                let receipt = make(entries, &Op::Remove { test }, entry, receipts, tried);
                stale = stale || is_stale(receipt.answer);
                put_word(answered(&receipt, request), words, 2 * i);
                if receipt.answer == Answer::Worn {
                    return ended(
                        Rc::Hardware,
                        pairs,
                        2 * i + 1,
                        tried + 1,
                        stale,
                        words,
                        room,
                    );
                }
                put_word(word, words, 2 * i + 1);
            }
        }
    }
    ended(Rc::Success, pairs, 8, 4, stale, words, room)
}
