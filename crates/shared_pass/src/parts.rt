//! A box taken apart into its pointer and its allocator, and put together again, so that C can hold
//! the pointer.
ghost use Rattle.std.specs.Prelude.{◌≡◌};
ghost use Rattle.std.specs.Box.Ownership.{box_owns};

use std::alloc::Allocator;
use std::marker::Model;
use std_alloc::room::Vacant;

/// What a box is made of: its pointer, and the allocator of its block.
pub struct Parts<T, A: Allocator> {
    /// Where the value lies.
    pub ptr: *mut T,
    /// The allocator that the block is of.
    pub alloc: A,
    pub ghost value: { T },
}

impl<T, A: Allocator> Model for Parts<T, A> {
    ghost also_owns = { λ p. box_owns (A.dealloc_token p.alloc) T.row p.ptr p.value };
}

impl<T, A: Allocator> Parts<T, A> {
    /// Takes the box apart.
    pub fn of(b: Box<T, A>) -> Parts<T, A>
    where
        T: Drop,
        ensures { result.value ≡ b.value }
    {
        let (ptr, alloc) = Box::into_raw_with_allocator(b);
        Parts { ptr, alloc }
    }

    /// Puts the box together again.
    pub fn into_box(self) -> Box<T, A>
        ensures { result.value ≡ self.value }
    {
        let Parts { ptr, alloc } = self;
        unsafe { Box::from_raw(alloc, ptr) }
    }

    /// Puts a value into a block that has none.
    pub fn fill(block: Vacant<T, A>, value: T) -> Parts<T, A>
        ensures { result.value ≡ value }
    {
        let Vacant { ptr, alloc } = block;
        unsafe {
            ptr.write(value);
        }
        Parts { ptr, alloc }
    }
}
