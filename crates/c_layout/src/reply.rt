//! The answer of a hypervisor call for C, and how the words of its registers are put into the
//! caller's slots.
ghost use Rattle.std.specs.Prelude.{◌≡◌, ◌≤◌, length, min, set};
ghost use Rattle.papr_codes.specs.ReturnCodes.{rc_code};
ghost use Rattle.c_layout.specs.Slots.{filled};
ghost use Rattle.c_layout.specs.Replies.{refused_reply};

use entry_model::Registers;
use papr_codes::Rc;

/// What a hypervisor call answers: its return code, as register 3 has it, how many of the caller's
/// slots for words and for receipts were filled, and whether cached translations have to be
/// dropped.
#[repr(C)]
#[derive(Clone, Copy)]
pub struct PaprReply {
    /// The return code, as register 3 has it.
    pub rc: i64,
    /// How many words were written.
    pub words: u32,
    /// How many receipts were written.
    pub receipts: u32,
    /// Whether a cached translation may no longer hold: an entry was removed or protected, or its R
    /// or C was cleared. It doesn't matter how many receipts were written.
    pub stale: bool,
}

impl PaprReply {
    /// H_PARAMETER, for a call that isn't made.
    pub fn refused() -> PaprReply
        ensures { result ≡ refused_reply }
    {
        PaprReply {
            rc: Rc::Parameter.code(),
            words: 0,
            receipts: 0,
            stale: false,
        }
    }

    /// A code, how many of the caller's slots are filled, and whether a cached translation may no
    /// longer hold.
    #[inline]
    pub fn answered(rc: Rc, words: u32, receipts: u32, stale: bool) -> PaprReply
        ensures { result
            ≡ record {
              rc = rc_code rc;
              words = words;
              receipts = receipts;
              stale = stale;
            } }
    {
        PaprReply {
            rc: rc.code(),
            words,
            receipts,
            stale,
        }
    }
}

/// Puts a word into the caller's slot, where there is one.
#[inline]
pub fn put_word(word: u64, slots: &mut [u64], index: usize)
    ensures { slots.new ≡ set slots.old index word }
{
    if index < slots.len() {
        slots[index] = word;
    }
}

/// Puts words into the caller's slots, as far as these go, and gives how many it put.
// Each is tested against the room, so that two words take no call of memcpy.
#[inline]
fn put_words(made: &[u64], slots: &mut [u64]) -> u32
    requires { length made.now ≤ 8 }
    ensures filled { slots.new ≡ filled slots.old made.now }
    ensures count { result ≡ min (length slots.old) (length made.now) }
{
    for i in 0..made.len() {
        put_word(made[i], slots, i);
    }
    filled_count(slots.len(), made.len() as u32)
}

/// Puts what a call left in registers into the caller's slots, as far as these go. The receipts
/// of the entries that it tried were put already.
#[inline]
pub fn hand_over(
    registers: &Registers,
    tried: u32,
    stale: bool,
    words: &mut [u64],
    room: usize,
) -> PaprReply
    ensures reply { result
        ≡ record {
          rc = rc_code registers.now.rc;
          words = min (length words.old) (length registers.now.words);
          receipts = min room tried;
          stale = stale;
        } }
    ensures words { words.new ≡ filled words.old registers.now.words }
{
    PaprReply {
        rc: registers.rc.code(),
        words: put_words(registers.words.as_slice(), words),
        receipts: filled_count(room, tried),
        stale,
    }
}

/// How many of the caller's slots are filled.
#[inline]
pub fn filled_count(room: usize, made: u32) -> u32
    ensures { result ≡ min room made }
{
    room.min(made as usize) as u32
}
