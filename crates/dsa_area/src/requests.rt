//! Chunks are granted and taken back.
//!
//! A request of up to 8,192 bytes is an object of a size class (`objects`), a larger one is whole pages (`whole`). The
//! size of a chunk that comes back says which it is: that of a class's object, or whole pages above 8,192 bytes.

ghost use Rattle.std.specs.Prelude.{◌≡◌, ◌≤◌, ◌^◌, IfOk, IfErr};
ghost use Rattle.dsa_area.specs.Sizes.{chunk_size};
ghost use Rattle.dsa_area.specs.Shown.{Belongs, IsArea, number_of};
ghost use Rattle.dsa_area.specs.Requests.{IsGranted, IsRefused, IsTakenBack, IsHandedBack};

use crate::area::{Area, AreaPass};
use crate::objects::{grant_object, take_object_back};
use crate::sizes::{LARGEST_SIZE, page_count};
use crate::whole::{grant_pages, take_pages_back};
use region_words::{Chunk, Region};
use size_classes::{class_of, class_with};
use std::sync::Wait;

/// There are fewer free pages in a row than are needed.
#[derive(Drop)]
pub struct NoSpace {
    /// The pages that were wanted: 16 for an object, else those of the request.
    pub pages: u32,
    /// The pages of the longest run that was free.
    pub largest: u32,
}

/// No chunk of the area has this place and size. It comes back as it was.
#[derive(Drop)]
pub struct Stranger {
    pub chunk: Chunk,
}

impl Area {
    /// A chunk of `chunk_bytes(bytes)` bytes, which the caller owns from then on, whatever its words hold. It takes no
    /// memory, and may wait for the lock of one pool and for that of the pages, one after the other. Costs one call of
    /// a pool while that has a free object, and three calls if it gets a superblock first.
    pub fn alloc<R: Wait>(
        &self,
        rt: &R,
        r: &Region,
        pass: &mut AreaPass,
        bytes: u64,
    ) -> Result<Chunk, NoSpace>
        requires area { IsArea r.now self.now }
        requires own { Belongs self.now pass.old }
        requires some { (1 ≤ bytes) × (bytes ≤ 2 ^ 30) }
        ensures own { Belongs self.now pass.new }
        ensures caller { number_of pass.new ≡ number_of pass.old }
        ensures granted { IfOk result (λ c. IsGranted self.now pass.old pass.new bytes c.at) }
        ensures size { IfOk result (λ c. c.bytes ≡ chunk_size bytes) }
        ensures holds { IfOk result (λ c. bytes ≤ c.bytes) }
        ensures here { IfOk result (λ c. c.part.region ≡ r.now) }
        ensures refused { IfErr result (λ e. IsRefused self.now pass.old pass.new bytes e.pages e.largest) }
    {
        match class_of(bytes as u32) {
            Some(class) => grant_object(rt, self, r, pass, class),
            None => grant_pages(rt, self, r, pass, page_count(bytes)),
        }
    }

    /// Takes a chunk back, which is the area's from then on. It takes no memory, and may wait for the lock of one pool
    /// and for that of the pages, one after the other. Costs one call of a pool or of the pages, and one more if a
    /// superblock goes back to the pages.
    pub fn free<R: Wait>(
        &self,
        rt: &R,
        r: &Region,
        pass: &mut AreaPass,
        chunk: Chunk,
    ) -> Result<(), Stranger>
        requires area { IsArea r.now self.now }
        requires own { Belongs self.now pass.old }
        requires here { chunk.part.region ≡ r.now }
        ensures own { Belongs self.now pass.new }
        ensures caller { number_of pass.new ≡ number_of pass.old }
        ensures freed { IfOk result (λ _. IsTakenBack self.now pass.old pass.new chunk.at chunk.bytes) }
        ensures stranger { IfErr result (λ _. IsHandedBack self.now pass.old pass.new chunk.at chunk.bytes) }
        ensures back { IfErr result (λ s. s.chunk ≡ chunk) }
    {
        if chunk.bytes > LARGEST_SIZE {
            return take_pages_back(rt, self, r, pass, chunk);
        }
        match class_with(chunk.bytes) {
            Some(class) => take_object_back(rt, self, r, pass, class, chunk),
            None => Err(Stranger { chunk }),
        }
    }
}
