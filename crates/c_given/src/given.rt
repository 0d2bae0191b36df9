//! Where a queue lies in memory that a caller gave, as a caller in C keeps it.

ghost use Rattle.std.specs.Prelude.{◌≡◌, ◌≤◌, ℕ, Option, Some, IsSome};
ghost use Rattle.atomic_table.specs.Seated.{TableId};
ghost use Rattle.c_given.specs.Which.{Which};
ghost use Rattle.c_given.specs.Owned.{head_code, lies_for_good, table_code, words_lie};

use crate::head::Head;
use given_heap::Given;
use region_rule::{Known, RegionRule};
use std::marker::{Model, PhantomData};
use twin_table::Twin;

/// Where the head of a queue lies, for good, or nothing. It is an address alone, and each process has its own. It may
/// be copied.
#[repr(C)]
#[derive(Drop)]
pub struct Site {
    /// The head's first byte.
    pub at: *mut u8,
    pub ghost queue: { Option Which } by { head_code },
}

impl Model for Site {
    ghost also_owns = { λ s. lies_for_good s.at s.queue };
}

impl Site {
    /// Puts the head at the front of the memory, for good.
    pub(crate) fn put(memory: Given, head: Head) -> Site
        requires { 1024 ≤ memory.size }
        ensures { (result.at ≡ memory.at) × (result.queue ≡ Some head) }
    {
        let Given { at, size: _ } = memory;
        let place = at as *mut Head;
        unsafe {
            place.write(head);
        }
        Site { at }
    }

    /// The head.
    pub(crate) fn get(self) -> &'static Head
        requires { IsSome self.queue }
        ensures { self.queue ≡ Some result.now }
    {
        let Site { at } = self;
        let place = at as *const Head;
        unsafe { &*place }
    }
}

/// Where the words and the slots of a region lie, for good, or nothing. It is two addresses alone, and each process has
/// its own. It may be copied.
#[repr(C)]
#[derive(Drop)]
pub struct Rows {
    /// The first word.
    pub words: *mut u64,
    /// The first slot.
    pub slots: *mut u64,
    pub ghost table: { Option (TableId × ℕ) } by { table_code },
}

impl Model for Rows {
    ghost also_owns = { λ g. words_lie g.words g.slots g.table };
}

impl Rows {
    /// The two addresses of a table.
    pub(crate) fn of(table: Twin<u64, Known, usize, RegionRule>) -> Rows
        ensures { result.table ≡ Some (table.table_id, table.key) }
    {
        let Twin {
            words,
            slots,
            marker: _,
        } = table;
        Rows { words, slots }
    }

    /// The table again.
    pub(crate) fn get(self) -> Twin<u64, Known, usize, RegionRule>
        requires { IsSome self.table }
        ensures { self.table ≡ Some (result.table_id, result.key) }
    {
        let Rows { words, slots } = self;
        Twin {
            words,
            slots,
            marker: PhantomData,
        }
    }
}
