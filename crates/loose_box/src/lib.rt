//! A box as its pointer.
//!
//! A `Box` lends what it has to readers of a `&`, so no struct that C sees may have one inside. A `Loose` owns the same
//! memory and lends nothing: it is a box taken apart, for a struct that keeps the bare pointer between calls, and can
//! be made a box again.

#![tactic(auto)]

ghost use Rattle.std.specs.Prelude.{◌≡◌};
ghost use Rattle.std_alloc.specs.Box.Ownership.{box_owns};

use std::alloc::Allocator;
use std::marker::Model;

/// The parts of a box: it owns the value at `at`, and the right to give its memory back to `alloc`. If it is taken
/// apart, the holder of the pointer owns them.
pub struct Loose<T, A: Allocator> {
    /// Where the value lies.
    pub at: *mut T,
    /// The allocator of its memory.
    pub alloc: A,
    /// The value.
    pub ghost value: { T },
}

impl<T, A: Allocator> Model for Loose<T, A> {
    ghost also_owns = { λ l. box_owns (A.dealloc_token l.alloc) T.row l.at l.value };
}

impl<T: Drop, A: Allocator> Loose<T, A> {
    /// Takes a box apart. The value stays where it is.
    pub fn of(value: Box<T, A>) -> Loose<T, A>
        ensures { result.value ≡ value.value }
    {
        let (at, alloc) = Box::into_raw_with_allocator(value);
        Loose { at, alloc }
    }

    /// The box again.
    pub fn into_box(self) -> Box<T, A>
        ensures { result.value ≡ self.value }
    {
        let Loose { at, alloc } = self;
        unsafe { Box::from_raw(alloc, at) }
    }
}
