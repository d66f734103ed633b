//! What holds up the next operation of a pass: its entry, the control words of the last try, and
//! whether another thread holds the lock or changes the word.
ghost use Rattle.std.specs.Prelude.{◌≡◌};

use shared_pass::{Pending, Working};

/// Another thread holds the lock of the entry.
const HELD: u32 = 1;

/// Another thread changes the control word of the entry.
const CHANGING: u32 = 2;

/// Why a call or a walk is held up.
#[repr(C)]
#[derive(Clone, Copy)]
pub struct PaprBusy {
    /// The control word that the try noted.
    pub looked: u64,
    /// The one that its last step found.
    pub found: u64,
    /// The entry of the next operation.
    pub entry: u32,
    /// How many operations are made.
    pub done: u32,
    /// 0 where nothing is held up, 1 where another thread holds the lock of the entry, 2 where
    /// another thread changes its control word.
    pub hold: u32,
}

impl PaprBusy {
    ghost use Rattle.papr_shared.specs.HeldUp.{not_held_up, busy_at, busy_by};

    /// Nothing is held up.
    pub fn none() -> PaprBusy
        ensures { result ≡ not_held_up }
    {
        PaprBusy {
            looked: 0,
            found: 0,
            entry: 0,
            done: 0,
            hold: 0,
        }
    }

    /// The next operation of this pass is held up so.
    fn at(working: &Working, hold: u32) -> PaprBusy
        ensures { result ≡ busy_at working.now.busy working.now.receipts hold }
    {
        PaprBusy {
            looked: working.busy.looked,
            found: working.busy.found,
            entry: working.busy.entry,
            done: working.receipts.as_slice().len() as u32,
            hold,
        }
    }

    /// Why this pass is held up, if it is.
    pub fn of(working: &Working) -> PaprBusy
        ensures { result ≡ busy_by working.now.pending working.now.busy working.now.receipts }
    {
        match working.pending {
            Pending::Nothing => PaprBusy::none(),
            Pending::Call { .. } => PaprBusy::at(working, HELD),
            Pending::Walk { .. } => PaprBusy::at(working, CHANGING),
        }
    }
}
