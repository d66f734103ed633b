//! The pointer in a pass of C: it owns the box of a pass at work, or is null.
ghost use Rattle.std.specs.Prelude.{◌≡◌, true, Option, Some, None, is_some};
ghost use Rattle.shared_pass.specs.declared.working.Working.{Working};
ghost use Rattle.shared_pass.specs.Owned.{held_coded, pointer_owns};

use crate::parts::Parts;
use crate::working::Working;
use std::alloc::Global;
use std::marker::Model;
use std::ptr::null_mut;

/// A boxed pass at work, or nothing, by its pointer. Dropping it frees nothing.
#[repr(C)]
#[derive(Drop)]
pub struct WorkingPointer {
    at: *mut u8,
    alloc: Global,
    pub ghost held: { Option Working } by { held_coded },
}

impl Model for WorkingPointer {
    ghost also_owns = { λ s. pointer_owns s.alloc s.at s.held };
}

impl WorkingPointer {
    /// The pointer to nothing: there is no pass at work.
    pub(crate) fn none(alloc: Global) -> WorkingPointer
        ensures { result.held ≡ None }
    {
        WorkingPointer {
            at: null_mut(),
            alloc,
        }
    }

    fn of_parts(parts: Parts<Working, Global>) -> WorkingPointer
        ensures { result.held ≡ Some parts.value }
    {
        let Parts { ptr, alloc } = parts;
        WorkingPointer {
            at: ptr as *mut u8,
            alloc,
        }
    }

    fn into_parts(self) -> Parts<Working, Global>
        requires { is_some self.held ≡ true }
        ensures { self.held ≡ Some result.value }
    {
        let WorkingPointer { at, alloc } = self;
        Parts {
            ptr: at as *mut Working,
            alloc,
        }
    }

    /// The pointer that owns what is in the box.
    pub(crate) fn of(working: Box<Working>) -> WorkingPointer
        ensures { result.held ≡ Some working.value }
    {
        WorkingPointer::of_parts(Parts::of(working))
    }

    /// The box that the pointer holds.
    pub(crate) fn into_box(self) -> Box<Working>
        requires { is_some self.held ≡ true }
        ensures { self.held ≡ Some result.value }
    {
        self.into_parts().into_box()
    }
}

// What is in the box may go to another thread: a table that threads share, and a pass.
unsafe impl Send for WorkingPointer {}
