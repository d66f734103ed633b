//! A hook at the one place where an operation has locked its entry and done nothing else.
ghost use Rattle.entry_lock.specs.Holding.{HasJustLocked};

use crate::rule::PassSeat;

/// A pass that has just locked an entry: it holds the entry, and has loaded no word of it yet. A
/// value can be made only there.
#[derive(Drop)]
pub struct JustLocked<'a> {
    pub(crate) seat: &'a PassSeat,
    pub ghost locked: { HasJustLocked seat.now.me.0 },
}

/// A hook for tests, by which they stop an operation where it holds its entry. That it is called
/// is shown by tests alone: it takes `&self` and gives nothing, so no clause can ask for it.
pub trait Pause {
    /// Between the lock step and the loads of the entry's words. It always returns. No clause says
    /// what it does.
    fn held(&self, at: JustLocked);
}

/// No pause.
pub struct NoPause;

impl Pause for NoPause {
    fn held(&self, _at: JustLocked) {}
}
