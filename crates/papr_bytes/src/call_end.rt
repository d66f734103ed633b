//! The end of a call for C: the program's status and the length of its output, or a status of its
//! own where the room is too small for that.
ghost use Rattle.std.specs.Prelude.{◌≡◌};
ghost use Rattle.papr_bytes.specs.Calls.{handed, no_memory};

use papr_top::Status;

/// How a call ended: the program's status, or [`NO_ROOM`], and the length of what it wrote.
#[repr(C)]
#[derive(Clone, Copy)]
pub struct CallEnd {
    /// The program's exit status, or 7 where the room is too small.
    pub status: u32,
    /// In bytes: of what was written, or of the room that is wanted.
    pub length: u64,
}

/// The status where the caller's room is too small for what was written.
const NO_ROOM: u32 = 7;

impl CallEnd {
    /// There is not enough memory to begin.
    pub fn no_memory() -> CallEnd
        ensures { result ≡ no_memory }
    {
        CallEnd {
            status: u32::from(Status::Memory.number()),
            length: 0,
        }
    }
}

/// Puts what was written into the caller's room, if that holds all of it.
pub fn hand_over(status: Status, text: &[u8], room: &mut [u8]) -> CallEnd
    ensures { (result, room.new) ≡ handed status text.now room.old }
{
    let length = text.len();
    if room.len() < length {
        return CallEnd {
            status: NO_ROOM,
            length: length as u64,
        };
    }
    room[..length].copy_from_slice(text);
    CallEnd {
        status: u32::from(status.number()),
        length: length as u64,
    }
}
