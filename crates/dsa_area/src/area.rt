//! The area and its passes.
//!
//! The words of an area change hands by tokens: the pages' words are `Pages`' or a run's, an object's are its pool's or
//! a chunk's. `Pages` and the pools are under locks, so a caller changes them only in a call of `Shelf`, one at a time,
//! and what a chunk owns nobody else touches. `IsArea` of `specs/Shown.antt` says how the two shelves opened.

use crate::pages::LockedPages;
use crate::pools::LockedPool;
use crate::sizes::PAGE_BYTES;
use lock_book::{Pass, Shelf};

/// An area that many callers use at once. Threads share it by reference.
#[derive(Drop)]
pub struct Area {
    /// The first word of page 0.
    pub(crate) first: u64,
    /// How many pages there are.
    pub(crate) count: u32,
    /// The one `Pages`.
    pub(crate) pages: Shelf<LockedPages>,
    /// The pools of the 36 size classes, from class 2 on.
    pub(crate) pools: Shelf<LockedPool>,
}

/// One caller's token, which may go to another thread. It shows what the caller has seen of the pages and of each pool,
/// and its own calls there.
#[derive(Drop)]
pub struct AreaPass {
    pub(crate) pages: Pass<LockedPages>,
    pub(crate) pools: Pass<LockedPool>,
}

impl Area {
    ghost use Rattle.std.specs.Prelude.{◌≡◌, ◌*◌};
    ghost use Rattle.dsa_area.specs.Shown.{pages_of};
    ghost use Rattle.dsa_area.specs.Sizes.{page_bytes};

    /// The bytes of all its pages, granted or not: what was asked for when it was made, for its size never changes. No
    /// step on the region.
    pub fn size(&self) -> u64
        ensures { result ≡ page_bytes * pages_of self.now }
    {
        PAGE_BYTES * u64::from(self.count)
    }
}

impl AreaPass {
    ghost use Rattle.std.specs.Prelude.{◌≡◌};
    ghost use Rattle.dsa_area.specs.Shown.{number_of};

    /// The caller's number, from 0 on.
    pub fn number(&self) -> u32
        ensures { result ≡ number_of self.now }
    {
        self.pages.number()
    }
}
