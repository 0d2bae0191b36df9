//! The area that the shell's chunks and rings come from, with its one pass.

ghost use Rattle.std.specs.Prelude.{◌≡◌, ◌*◌, ◌≤◌, ◌^◌, IfErr, IfOk};
ghost use Rattle.dsa_area.specs.Requests.{IsGranted, IsHandedBack, IsRefused, IsTakenBack};
ghost use Rattle.dsa_area.specs.Shown.{IsFresh, pages_of};
ghost use Rattle.dsa_area.specs.Sizes.{chunk_size};
ghost use Rattle.free_pages.specs.Area.{area_size};
ghost use Rattle.shell_memory.specs.Chunks.{IsHeap};

use dsa_area::{Area, AreaPass, NoSpace, Stranger};
use region_words::{Chunk, Region};
use std::alloc::{AllocError, Global};
use std::sync::Wait;

/// The area, and the pass of its one caller.
#[derive(Drop)]
pub struct Heap {
    pub area: Area,
    pub pass: AreaPass,
}

impl Heap {
    /// An area of this many pages in a chunk, with one caller.
    pub fn new(alloc: Global, r: &Region, chunk: Chunk, pages: u32) -> Result<Heap, AllocError>
        requires here { chunk.part.region ≡ r.now }
        requires size { chunk.bytes ≡ 8 * area_size pages }
        requires few { pages ≤ 65536 }
        ensures heap { IfOk result (IsHeap r.now) }
        ensures pages { IfOk result (λ heap. pages_of heap.area ≡ pages) }
        ensures fresh { IfOk result (λ heap. IsFresh heap.pass) }
    {
        let (area, mut passes) = Area::new(alloc, r, chunk, pages, 1)?;
        let Some(pass) = passes.pop() else {
            unreachable!()
        };
        Ok(Heap { area, pass })
    }

    /// A chunk of at least this many bytes.
    pub fn alloc<R: Wait>(&mut self, rt: &R, r: &Region, bytes: u64) -> Result<Chunk, NoSpace>
        requires heap { IsHeap r.now self.old }
        requires some { (1 ≤ bytes) × (bytes ≤ 2 ^ 30) }
        ensures heap { IsHeap r.now self.new }
        ensures area { self.new.area ≡ self.old.area }
        ensures granted { IfOk result (λ c. IsGranted self.old.area self.old.pass self.new.pass bytes c.at) }
        ensures size { IfOk result (λ c. (c.bytes ≡ chunk_size bytes) × (bytes ≤ c.bytes)) }
        ensures here { IfOk result (λ c. c.part.region ≡ r.now) }
        ensures refused { IfErr result (λ e. IsRefused self.old.area self.old.pass self.new.pass bytes e.pages e.largest) }
    {
        self.area.alloc(rt, r, &mut self.pass, bytes)
    }

    /// Takes a chunk back.
    pub fn free<R: Wait>(&mut self, rt: &R, r: &Region, chunk: Chunk) -> Result<(), Stranger>
        requires heap { IsHeap r.now self.old }
        requires here { chunk.part.region ≡ r.now }
        ensures heap { IsHeap r.now self.new }
        ensures area { self.new.area ≡ self.old.area }
        ensures freed { IfOk result (λ _. IsTakenBack self.old.area self.old.pass self.new.pass chunk.at chunk.bytes) }
        ensures stranger { IfErr result (λ _. IsHandedBack self.old.area self.old.pass self.new.pass chunk.at chunk.bytes) }
        ensures back { IfErr result (λ s. s.chunk ≡ chunk) }
    {
        self.area.free(rt, r, &mut self.pass, chunk)
    }
}
