//! The pages and the pools of an area: a chunk is granted or taken back in one step of the whole.

ghost use Rattle.std.specs.Prelude.{◌≡◌, ◌≤◌, ◌^◌, true, false, IfOk, IfErr};
ghost use Rattle.size_classes.specs.Classes.{IsClass};
ghost use Rattle.dsa_area.specs.Sizes.{chunk_size};
ghost use Rattle.c_area.specs.Arenas.{IsArena, name_of, state_of};
ghost use Rattle.c_area.specs.Legal.{Grants, HandsItBack, KeepsPool, Refuses, TakesBack, TrimsPool, AtClass, AtPages};
ghost use Rattle.free_pages.specs.Legal.{Look, Shows};

use crate::blocks::{give_object, give_pages, page_count, take_object, take_pages, trim_pool};
use free_pages::{NoRun, Pages, Usage};
use region_words::{Chunk, Region};
use size_classes::{class_of, class_with};
use span_pools::Pool;

/// The bytes of the largest object of a size class.
const LARGEST_SIZE: u64 = 8192;

/// The number of the first size class.
pub(crate) const FIRST_CLASS: u8 = 2;

/// The pages, and the pools of the size classes from 2 to 37, in order.
#[derive(Drop)]
pub(crate) struct Arena {
    pub(crate) pages: Pages,
    pub(crate) pools: Vec<Pool>,
}

/// A chunk of `chunk_bytes(bytes)` bytes, if there is one.
pub(crate) fn grant(arena: &mut Arena, r: &Region, bytes: u64) -> Result<Chunk, NoRun>
    requires arena { IsArena arena.old }
    requires here { (name_of arena.old).region ≡ r.now }
    requires some { (1 ≤ bytes) × (bytes ≤ 2 ^ 30) }
    ensures arena { IsArena arena.new }
    ensures name { name_of arena.new ≡ name_of arena.old }
    ensures granted { IfOk result (λ c. Grants (name_of arena.old) (state_of arena.old) (state_of arena.new) bytes c.at) }
    ensures chunk { IfOk result (λ c. (c.bytes ≡ chunk_size bytes) × (c.part.region ≡ r.now)) }
    ensures refused { IfErr result (λ no. Refuses (name_of arena.old) (state_of arena.old) (state_of arena.new) bytes no.wanted no.largest) }
{
    match class_of(bytes as u32) {
        Some(class) => {
            let pool = &mut arena.pools[usize::from(class - FIRST_CLASS)];
            take_object(r, &mut arena.pages, pool)
        }
        None => take_pages(r, &mut arena.pages, page_count(bytes)),
    }
}

/// Takes a chunk back, or gives it again if no chunk of the area has its place and size.
pub(crate) fn take_back(arena: &mut Arena, r: &Region, chunk: Chunk) -> Result<(), Chunk>
    requires arena { IsArena arena.old }
    requires here { ((name_of arena.old).region ≡ r.now) × (chunk.part.region ≡ r.now) }
    ensures arena { IsArena arena.new }
    ensures name { name_of arena.new ≡ name_of arena.old }
    ensures taken { IfOk result (λ _. TakesBack (name_of arena.old) (state_of arena.old) (state_of arena.new) chunk.at chunk.bytes) }
    ensures refused { IfErr result (λ _. HandsItBack (name_of arena.old) (state_of arena.old) (state_of arena.new) chunk.at chunk.bytes) }
    ensures back { IfErr result (λ back. back ≡ chunk) }
{
    if chunk.bytes > LARGEST_SIZE {
        return give_pages(r, &mut arena.pages, chunk);
    }
    match class_with(chunk.bytes) {
        Some(class) => {
            let pool = &mut arena.pools[usize::from(class - FIRST_CLASS)];
            give_object(r, &mut arena.pages, pool, chunk)
        }
        None => Err(chunk),
    }
}

/// The active superblock of a class goes to the pages, if nothing in it is live. Whether it did.
pub(crate) fn trim(arena: &mut Arena, r: &Region, class: u8) -> bool
    requires arena { IsArena arena.old }
    requires here { (name_of arena.old).region ≡ r.now }
    requires class { IsClass class }
    ensures arena { IsArena arena.new }
    ensures name { name_of arena.new ≡ name_of arena.old }
    ensures trimmed { result ≡ true → AtClass (name_of arena.old) (state_of arena.old) (state_of arena.new) TrimsPool class }
    ensures kept { result ≡ false → AtClass (name_of arena.old) (state_of arena.old) (state_of arena.new) KeepsPool class }
{
    let pool = &mut arena.pools[usize::from(class - FIRST_CLASS)];
    trim_pool(r, &mut arena.pages, pool)
}

/// How the pages are used.
pub(crate) fn usage(arena: &mut Arena, r: &Region) -> Usage
    requires arena { IsArena arena.old }
    requires here { (name_of arena.old).region ≡ r.now }
    ensures arena { IsArena arena.new }
    ensures name { name_of arena.new ≡ name_of arena.old }
    ensures shown { AtPages (name_of arena.old) (state_of arena.old) (state_of arena.new) Look (Shows result.used result.largest) }
{
    arena.pages.usage(r)
}
