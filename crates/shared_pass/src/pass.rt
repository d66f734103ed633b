//! The struct of a pass in the memory of C, into which a boxed pass at work is put and from which
//! it is taken.
ghost use Rattle.std.specs.Prelude.{◌≡◌, is_some};

use crate::pointer::WorkingPointer;
use crate::working::Working;
use std::alloc::Global;
use std::mem::replace;

/// A pass as C holds it. All zero, or as a call left it; closed where nothing is in it.
#[repr(C)]
#[derive(Drop)]
pub struct PaprPass {
    pub(crate) pointer: WorkingPointer,
    pub(crate) live: bool,
    pub ghost is_live: { live ≡ is_some pointer.held },
}

impl PaprPass {
    ghost use Rattle.std.specs.Prelude.{Some, None, IfSome, IfNone};

    /// A pass that is closed.
    fn closed(alloc: Global) -> PaprPass
        ensures { result.pointer.held ≡ None }
    {
        PaprPass {
            pointer: WorkingPointer::none(alloc),
            live: false,
        }
    }

    /// Whether something is in it.
    #[inline]
    pub fn is_open(&self) -> bool
        ensures { result ≡ is_some self.now.pointer.held }
    {
        self.live
    }

    /// Puts a pass into one that is closed.
    #[inline]
    pub fn put(&mut self, working: Box<Working>)
        requires { self.old.pointer.held ≡ None }
        ensures { self.new.pointer.held ≡ Some working.value }
    {
        *self = PaprPass {
            pointer: WorkingPointer::of(working),
            live: true,
        };
    }

    /// Takes out what is in it.
    #[inline]
    pub fn take(&mut self, alloc: Global) -> Option<Box<Working>>
        ensures some { IfSome result (λ b. self.old.pointer.held ≡ Some b.value) }
        ensures none { IfNone result (self.old.pointer.held ≡ None) }
        ensures closed { self.new.pointer.held ≡ None }
    {
        let old = replace(self, PaprPass::closed(alloc));
        let PaprPass { pointer, live } = old;
        if live { Some(pointer.into_box()) } else { None }
    }
}
