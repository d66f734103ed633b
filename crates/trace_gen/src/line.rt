//! A run line made of one word of 64 bits, whose parts give the processor, the kind of line, the
//! page, the slot and the frame.
ghost use Rattle.std.specs.Prelude.{◌≡◌, ◌<◌, false};
ghost use Rattle.trace_gen.specs.Generated.{act_of, line_of, named_call, segment_line};

use papr_codes::Hcall;
use storage_prot::Want;
use trace_line::{Act, TraceLine};

/// V, and the abbreviated virtual page number that all pages of the lines have: that of VSID 1 and
/// index 0.
const FIRST_TAG: u64 = 0x1001;

/// M is set, and the page may be read and written.
const READ_AND_WRITE: u64 = 0x12;

/// The protection bits of a page that may be read alone.
const READ_ALONE: u64 = 0x3;

/// The line that makes a segment at effective address 0 for a processor.
pub fn segment(cpu: u32) -> TraceLine
    requires { cpu < 4 }
    ensures { result ≡ segment_line cpu }
{
    TraceLine {
        number: cpu + 1,
        cpu,
        act: Act::SlbMte {
            rb: 0x800_0000,
            rs: 0x1000,
        },
    }
}

/// The line that is drawn from a word.
pub fn line(number: u32, word: u64) -> TraceLine
    ensures { result ≡ line_of number word }
{
    TraceLine {
        number,
        cpu: (word % 4) as u32,
        act: act(word),
    }
}

// The calls name entries of the group of the page that the accesses reach.
#[tactic(auto, unfolding(crate::specs::Generated::act_of))]
fn act(word: u64) -> Act
    ensures { result ≡ act_of word }
{
    let page = (word >> 16) % 256;
    let frame = (word >> 32) % (1 << 18);
    let group = (1 ^ page) * 8;
    let entry = group + (word >> 24) % 8;
    match (word >> 8) % 8 {
        0 => call(
            Hcall::Enter,
            [0, group, FIRST_TAG, frame * 4096 + READ_AND_WRITE],
        ),
        1 => call(Hcall::Remove, [0, entry, 0, 0]),
        2 => call(Hcall::Protect, [READ_ALONE, entry, 0, 0]),
        3 => access(Want::Load, page * 4096),
        4 => access(Want::Store, page * 4096),
        5 => call(Hcall::ClearMod, [0, entry, 0, 0]),
        6 => call(Hcall::ClearRef, [0, entry, 0, 0]),
        _ => call(Hcall::Read, [0, entry, 0, 0]),
    }
}

// A call that the line names.
fn call(hcall: Hcall, args: [u64; 4]) -> Act
    ensures { result ≡ named_call hcall args }
{
    let [first, second, third, fourth] = args;
    Act::Call {
        number: hcall.number(),
        args: [first, second, third, fourth, 0, 0, 0, 0],
        spelt: true,
    }
}

// An access in privileged state.
fn access(want: Want, ea: u64) -> Act
    ensures { result ≡ Act.Access want ea false }
{
    Act::Access {
        want,
        ea,
        user: false,
    }
}
