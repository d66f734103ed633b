//! What each atomic step shows its pass, in the form that `atomic_table` asks for. These types are
//! for the proofs alone: no value of them is made.
use crate::rule::View;
use atomic_table::{Join, Play, Split};
use std::marker::{Brand, PhantomData};

/// The operation that a step is for. Each call picks it.
pub trait ForOperation {
    ghost use Rattle.entry_model.specs.declared.operation.Op.{Op};

    ghost op: { Op };
}

impl ForOperation for Brand {
    ghost use Rattle.entry_model.specs.declared.operation.Op.TheVariants.{Read};

    ghost op = { Read };
}

/// The operation that a step is for, and what was noted of it. Each call picks it.
pub trait ForDoing {
    ghost use Rattle.lock_core.specs.declared.doing.Doing.{Doing};

    ghost doing: { Doing };
}

impl ForDoing for Brand {
    ghost use Rattle.std.specs.Prelude.{false, None};
    ghost use Rattle.entry_model.specs.declared.operation.Op.TheVariants.{Read};

    ghost doing = { record {
      entry = 0;
      op = Read;
      noted = record {
        locked = false;
        shut = false;
        valid = false;
        referenced = false;
        changed = false;
        stamp = 0;
      };
      first = None;
      second = None;
      seen = None;
    } };
}

/// The cached translation that a first look is by, and the operation. Each call picks them.
pub trait ForLineLook {
    ghost use Rattle.entry_model.specs.declared.line.Line.{Line};
    ghost use Rattle.entry_model.specs.declared.operation.Op.{Op};

    ghost cached: { Line };

    ghost op: { Op };
}

impl ForLineLook for Brand {
    ghost use Rattle.std.specs.Prelude.{false};
    ghost use Rattle.power_addr.specs.Pages.{virtual_page};
    ghost use Rattle.entry_model.specs.declared.operation.Op.TheVariants.{Read};

    ghost cached = { record {
      page = virtual_page false 0 0 0;
      entry = 0;
      stamp = 0;
      dword0 = 0;
      dword1 = 0;
    } };

    ghost op = { Read };
}

/// The cached translation that an access is decided by, and what was noted of the access. Each call
/// picks them.
pub trait ForLineDoing {
    ghost use Rattle.entry_model.specs.declared.line.Line.{Line};
    ghost use Rattle.lock_core.specs.declared.doing.Doing.{Doing};

    ghost cached: { Line };

    ghost doing: { Doing };
}

impl ForLineDoing for Brand {
    ghost use Rattle.std.specs.Prelude.{false, None};
    ghost use Rattle.power_addr.specs.Pages.{virtual_page};
    ghost use Rattle.entry_model.specs.declared.operation.Op.TheVariants.{Read};

    ghost cached = { record {
      page = virtual_page false 0 0 0;
      entry = 0;
      stamp = 0;
      dword0 = 0;
      dword1 = 0;
    } };

    ghost doing = { record {
      entry = 0;
      op = Read;
      noted = record {
        locked = false;
        shut = false;
        valid = false;
        referenced = false;
        changed = false;
        stamp = 0;
      };
      first = None;
      second = None;
      seen = None;
    } };
}

/// The lock step, for an operation.
pub struct Locks<W> {
    marker: PhantomData<W>,
}

impl<W: ForOperation> Play<u8, View> for Locks<W> {
    ghost use Rattle.entry_lock.specs.Plays.{BeginPlay};
    ghost use Rattle.entry_lock.specs.HolderSteps.{LockTells};

    ghost then = { BeginPlay LockTells W.op };
}

/// The load of a data word by a holder.
pub struct Loads;

impl Play<u8, View> for Loads {
    ghost use Rattle.entry_lock.specs.Plays.{HeldDataPlay};

    ghost then = { HeldDataPlay };
}

/// The shut of an entry by its holder.
pub struct Shuts;

impl Play<u8, View> for Shuts {
    ghost use Rattle.entry_lock.specs.Plays.{HeldPlay};
    ghost use Rattle.entry_lock.specs.HolderSteps.{ShutTells};

    ghost then = { HeldPlay ShutTells };
}

/// The release of an entry by its holder, unchanged.
pub struct Releases;

impl Play<u8, View> for Releases {
    ghost use Rattle.entry_lock.specs.Plays.{HeldPlay};
    ghost use Rattle.entry_lock.specs.HolderSteps.{ReleaseTells};

    ghost then = { HeldPlay ReleaseTells };
}

/// The store of a data word.
pub struct Stores;

impl Play<u8, View> for Stores {
    ghost use Rattle.entry_lock.specs.Plays.{ShutDataPlay};

    ghost then = { ShutDataPlay };
}

/// The settle of a shut entry, which opens it with its new state.
pub struct Settles;

impl Play<u8, View> for Settles {
    ghost use Rattle.entry_lock.specs.Plays.{ShutPlay};
    ghost use Rattle.entry_lock.specs.HolderSteps.{SettleTells};

    ghost then = { ShutPlay SettleTells };
}

/// The first look, for an operation.
pub struct Looks<W> {
    marker: PhantomData<W>,
}

impl<W: ForOperation> Play<u8, View> for Looks<W> {
    ghost use Rattle.entry_lock.specs.Plays.{BeginPlay};
    ghost use Rattle.entry_lock.specs.AccessSteps.{LookTells};

    ghost then = { BeginPlay LookTells W.op };
}

/// The load of a data word by an access.
pub struct LookedLoads;

impl Play<u8, View> for LookedLoads {
    ghost use Rattle.entry_lock.specs.Plays.{LookedDataPlay};

    ghost then = { LookedDataPlay };
}

/// The second look of an access, which decides it.
pub struct SecondLooks<W> {
    marker: PhantomData<W>,
}

impl<W: ForDoing> Play<u8, View> for SecondLooks<W> {
    ghost use Rattle.entry_lock.specs.Plays.{DecidingPlay};
    ghost use Rattle.entry_lock.specs.AccessSteps.{SecondLookTells};

    ghost then = { DecidingPlay SecondLookTells W.doing };
}

/// The mark of R and C by an access.
pub struct Marks<W> {
    marker: PhantomData<W>,
}

impl<W: ForDoing> Play<u8, View> for Marks<W> {
    ghost use Rattle.entry_lock.specs.Plays.{DecidingPlay};
    ghost use Rattle.entry_lock.specs.AccessSteps.{MarkTells};

    ghost then = { DecidingPlay MarkTells W.doing };
}

/// The first look by a cached translation.
pub struct LineLooks<W> {
    marker: PhantomData<W>,
}

impl<W: ForLineLook> Play<u8, View> for LineLooks<W> {
    ghost use Rattle.entry_lock.specs.Plays.{LinePlay};
    ghost use Rattle.entry_lock.specs.LineSteps.{LineLookTells};

    ghost then = { LinePlay (LineLookTells W.cached W.op) };
}

/// The second look by a cached translation.
pub struct LineSecondLooks<W> {
    marker: PhantomData<W>,
}

impl<W: ForLineDoing> Play<u8, View> for LineSecondLooks<W> {
    ghost use Rattle.entry_lock.specs.Plays.{LinePlay};
    ghost use Rattle.entry_lock.specs.LineSteps.{LineSecondLookTells};

    ghost then = { LinePlay (LineSecondLookTells W.cached W.doing) };
}

/// The mark by a cached translation.
pub struct LineMarks<W> {
    marker: PhantomData<W>,
}

impl<W: ForLineDoing> Play<u8, View> for LineMarks<W> {
    ghost use Rattle.entry_lock.specs.Plays.{LinePlay};
    ghost use Rattle.entry_lock.specs.LineSteps.{LineMarkTells};

    ghost then = { LinePlay (LineMarkTells W.cached W.doing) };
}

/// A look at word 0, which belongs to no entry.
pub struct SharesBound;

impl Play<u8, View> for SharesBound {
    ghost use Rattle.entry_lock.specs.Plays.{SharesPlay};

    ghost then = { SharesPlay };
}

/// How a view is cut in two.
pub struct SplitOff;

impl Split<View> for SplitOff {
    ghost use Rattle.entry_lock.specs.Views.{parent_view, child_view};

    ghost left = { parent_view };

    ghost right = { child_view };
}

/// How two views become one.
pub struct JoinIn;

impl Join<View> for JoinIn {
    ghost use Rattle.entry_lock.specs.Views.{joined_view, spent_view};

    ghost both = { joined_view };

    ghost spent = { spent_view };
}
