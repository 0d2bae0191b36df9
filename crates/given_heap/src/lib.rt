//! Memory that a caller brings: an allocator over two blocks of it, each of which is given out once and never comes back,
//! and a region's words laid in them.

#![tactic(auto)]

ghost use Rattle.std.specs.Prelude.{◌≡◌, ◌≤◌, ◌<◌, ◌^◌, ◌%◌, IfSome};
ghost use base.Fml.{ftrue};

mod laying;

pub use laying::lay;
use std::alloc::{AllocError, Allocator};
use std::cell::Cell;
use std::marker::Model;

/// Memory that a caller brings: `size` bytes from `at` on, aligned to 16. Whoever has it owns them.
#[repr(C)]
#[derive(Drop)]
pub struct Given {
    /// Where it begins.
    pub at: *mut u8,
    /// Its size in bytes.
    pub size: usize,
}

impl Model for Given {
    ghost use Rattle.given_heap.specs.Owned.{bytes_at};

    ghost also_owns = { λ g. bytes_at g.at g.size };
}

impl Given {
    /// Its size, and itself.
    pub fn measured(self) -> (usize, Given)
        ensures { (result.0 ≡ self.size) × (result.1.at ≡ self.at) × (result.1.size ≡ self.size) }
    {
        (self.size, self)
    }
}

/// Gives out its two blocks, one for each of its first two calls.
#[derive(Drop)]
pub struct GivenHeap {
    first: Cell<Option<Given>>,
    second: Cell<Option<Given>>,
}

impl GivenHeap {
    /// A heap of these two blocks.
    pub fn new(first: Given, second: Given) -> GivenHeap {
        GivenHeap {
            first: Cell::new(Some(first)),
            second: Cell::new(Some(second)),
        }
    }

    /// The next block, if it is large enough. Else it is lost.
    fn take(&self, size: usize, align: usize) -> Option<Given>
        ensures { IfSome result (λ g. (size ≤ g.size) × (g.size % 16 ≡ 0) × (size < 2 ^ 63) × (align ≤ 16)) }
    {
        if align > 16 || size > isize::MAX as usize {
            return None;
        }
        let next = match self.first.replace(None) {
            Some(given) => given,
            None => self.second.replace(None)?,
        };
        let (room, given) = next.measured();
        if room < size || room % 16 != 0 {
            return None;
        }
        Some(given)
    }
}

unsafe impl Allocator for GivenHeap {
    ghost dealloc_token = { λ heap ty p. ftrue };

    fn allocate(&self, size: usize, align: usize) -> Result<*mut u8, AllocError> {
        match self.take(size, align) {
            Some(Given { at, size: _ }) => Ok(at),
            None => Err(AllocError),
        }
    }

    unsafe fn deallocate(&self, _ptr: *mut u8, _size: usize, _align: usize) {}
}
