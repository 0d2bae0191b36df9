//! Memory that a caller brings, and a queue that lies in it for good.

ghost use Rattle.std.specs.Prelude.{◌≡◌, ◌≤◌, Option, Some, IsSome};
ghost use Rattle.logbook.specs.Pages.{Book};
ghost use Rattle.c_placed.specs.Owned.{which_code, lies_for_good};

use placed_queue::Queue;
use std::marker::Model;

/// Memory that a caller brings: `size` bytes from `at` on, a multiple of 16, aligned to 16. Whoever has it owns them,
/// so no two have a byte in common.
#[repr(C)]
#[derive(Drop)]
pub struct Given {
    /// Where it begins.
    pub at: *mut u8,
    /// Its size in bytes.
    pub size: usize,
}

impl Model for Given {
    ghost use Rattle.c_placed.specs.Owned.{bytes_at};

    ghost also_owns = { λ g. bytes_at g.at g.size };
}

impl Given {
    /// Its size, and itself.
    pub(crate) fn measured(self) -> (usize, Given)
        ensures { (result.0 ≡ self.size) × (result.1.at ≡ self.at) × (result.1.size ≡ self.size) }
    {
        (self.size, self)
    }
}

/// Where a queue lies, for good, or nothing. It is an address alone, and each process has its own: nothing that lies
/// there names an address. It may be copied.
#[repr(C)]
#[derive(Drop)]
pub struct Site {
    /// The queue's first byte.
    pub at: *mut u8,
    pub ghost queue: { Option Book } by { which_code },
}

impl Model for Site {
    ghost also_owns = { λ s. lies_for_good s.at s.queue };
}

impl Site {
    /// Puts the queue at the front of the memory, for good.
    pub(crate) fn put(memory: Given, queue: Queue) -> Site
        requires { 8192 ≤ memory.size }
        ensures { (result.at ≡ memory.at) × (result.queue ≡ Some queue) }
    {
        let Given { at, size: _ } = memory;
        let place = at as *mut Queue;
        unsafe {
            place.write(queue);
        }
        Site { at }
    }

    /// The queue.
    pub(crate) fn get(self) -> &'static Queue
        requires { IsSome self.queue }
        ensures { self.queue ≡ Some result.now }
    {
        let Site { at } = self;
        let place = at as *const Queue;
        unsafe { &*place }
    }
}
