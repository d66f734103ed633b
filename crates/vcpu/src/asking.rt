//! An access as one operation on an entry, by the segment's key and no-execute bit, the request and
//! the authority masks.
ghost use Rattle.std.specs.Prelude.{◌≡◌};
ghost use Rattle.entry_model.specs.Receipt.{IsNormal};
ghost use Rattle.hpt_walk.specs.Access.{key_for, mode_for};
ghost use Rattle.hpt_walk.specs.Walk as table;

use entry_model::Op;
use hpt_walk::{Request, access_op};
use slb_model::Segment;

/// The segment's key: Kp in problem state, else Ks.
pub fn key(segment: &Segment, user: bool) -> bool
    ensures { result ≡ key_for segment.now user }
{
    if user { segment.kp } else { segment.ks }
}

/// The access as an operation on an entry of the page, which is in the page's secondary group where
/// `secondary` says so.
pub fn operation(segment: &Segment, request: &Request, secondary: bool) -> Op
    ensures op { result
        ≡ table.access_op segment.now.page (mode_for segment.now request.now) secondary }
    ensures normal { IsNormal result }
{
    access_op(
        &segment.page,
        key(segment, request.user),
        segment.no_execute,
        request.want,
        request.masks,
        secondary,
    )
}
