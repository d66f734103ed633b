//! The call or the walk that a pass keeps: C may ask what holds it up, or give it up.
ghost use Rattle.std.specs.Prelude.{◌≡◌};
ghost use Rattle.papr_shared.specs.HeldUp.{busy_of, IsGivenUp};

use crate::held_up::PaprBusy;
use shared_pass::PaprPass;
use std::alloc::Global;

/// Why the call or the walk of this pass is held up.
#[unsafe(no_mangle)]
pub extern "C" fn papr_held_up(alloc: Global, pass: &mut PaprPass) -> PaprBusy
    ensures told { result ≡ busy_of pass.old.pointer.held }
    ensures same { pass.new.pointer.held ≡ pass.old.pointer.held }
{
    let Some(working) = pass.take(alloc) else {
        return PaprBusy::none();
    };
    let busy = PaprBusy::of(&working);
    pass.put(working);
    busy
}

/// Gives up the call or the walk that is held up. What it has made stays made.
#[unsafe(no_mangle)]
pub extern "C" fn papr_give_up(alloc: Global, pass: &mut PaprPass)
    ensures { IsGivenUp pass.old.pointer.held pass.new.pointer.held }
{
    let Some(mut working) = pass.take(alloc) else {
        return;
    };
    working.give_up();
    pass.put(working);
}
