//! The page table that the guest uses, with its place in the pool, and what a commit answers.
use crate::carry::Collision;
use entry_model::EntryState;
use papr_codes::Rc;

/// The page table of the guest: `2^order` bytes in the block of the pool at `place`.
#[derive(Drop)]
pub struct Current {
    /// 18 to 22.
    pub order: u8,
    /// The machine address of the table.
    pub place: u64,
    /// How many tables there were before.
    pub number: u32,
    /// The entries by their index: `2^(order - 4)` of them.
    pub states: Vec<EntryState>,
}

/// What H_RESIZE_HPT_COMMIT answers, and for H_PTEG_FULL the two entries that would meet.
#[derive(Clone, Copy, PartialEq, Eq, Debug)]
pub struct CommitAnswer {
    /// Register 3.
    pub rc: Rc,
    /// The lowest two entries that would go to one index; only under H_PTEG_FULL.
    pub collision: Option<Collision>,
}

impl CommitAnswer {
    ghost use Rattle.std.specs.Prelude.{◌≡◌, None};

    /// An answer with no collision.
    pub fn of(rc: Rc) -> CommitAnswer
        ensures { result ≡ record { rc = rc; collision = None } }
    {
        CommitAnswer {
            rc,
            collision: None,
        }
    }
}
