//! Requests that are objects of a size class.
//!
//! Its pool is asked first. If every object is live, 16 pages with their control records are taken from the pages and
//! become a superblock of the pool; the two locks are taken one after the other. A superblock that goes out with its
//! last object is given to the pages.

ghost use Rattle.std.specs.Prelude.{◌≡◌, ℕ, ◌⊎◌, true, [], ◌∷◌, IfOk, IfErr};
ghost use Rattle.size_classes.specs.Classes.{IsClass, class_size};
ghost use Rattle.free_pages.specs.Area.{superblock_pages};
ghost use Rattle.free_pages.specs.Legal.{Take, Give, Gets, Lacks, PagesReply};
ghost use Rattle.span_pools.specs.Legal.{Alloc, Add, Free, Object, Full, Kept, Whole, Stranger as NoObject};
ghost use Rattle.span_pools.specs.PoolView.{IsSuperblock};
ghost use Rattle.dsa_area.specs.Shown.{Belongs, IsArea, number_of, pool_name};
ghost use Rattle.dsa_area.specs.Requests.{Events, PageEvents, PoolEvents};

use crate::area::{Area, AreaPass};
use crate::at_pages::{give_run, take_run};
use crate::at_pools::{add_superblock, alloc_object, free_object};
use crate::requests::{NoSpace, Stranger};
use free_pages::SUPERBLOCK_PAGES;
use region_words::{Chunk, Region, Run};
use std::sync::Wait;

/// An object of a class, and a superblock for its pool first if that has no free one.
pub(crate) fn grant_object<R: Wait>(
    rt: &R,
    area: &Area,
    r: &Region,
    pass: &mut AreaPass,
    class: u8,
) -> Result<Chunk, NoSpace>
    requires area { IsArea r.now area.now }
    requires own { Belongs area.now pass.old }
    requires class { IsClass class }
    ensures own { Belongs area.now pass.new }
    ensures caller { number_of pass.new ≡ number_of pass.old }
    ensures granted { IfOk result (λ c. PoolEvents area.now pass.old pass.new class ((Alloc, Object c.at) ∷ [])
        ⊎ ((run : ℕ) × Events area.now pass.old pass.new class ((Alloc, Full) ∷ (Add run, Object c.at) ∷ []) ((Take superblock_pages true, Gets run) ∷ []))) }
    ensures size { IfOk result (λ c. c.bytes ≡ class_size class) }
    ensures here { IfOk result (λ c. c.part.region ≡ r.now) }
    ensures refused { IfErr result (λ e. Events area.now pass.old pass.new class ((Alloc, Full) ∷ []) ((Take superblock_pages true, Lacks e.pages e.largest) ∷ [])) }
{
    match alloc_object(rt, area, r, pass, class) {
        Some(object) => Ok(object),
        None => grow_pool(rt, area, r, pass, class),
    }
}

/// A superblock for a pool, and its first object.
fn grow_pool<R: Wait>(
    rt: &R,
    area: &Area,
    r: &Region,
    pass: &mut AreaPass,
    class: u8,
) -> Result<Chunk, NoSpace>
    requires area { IsArea r.now area.now }
    requires own { Belongs area.now pass.old }
    requires class { IsClass class }
    ensures own { Belongs area.now pass.new }
    ensures caller { number_of pass.new ≡ number_of pass.old }
    ensures granted { IfOk result (λ c. (run : ℕ) × Events area.now pass.old pass.new class ((Add run, Object c.at) ∷ []) ((Take superblock_pages true, Gets run) ∷ [])) }
    ensures size { IfOk result (λ c. c.bytes ≡ class_size class) }
    ensures here { IfOk result (λ c. c.part.region ≡ r.now) }
    ensures refused { IfErr result (λ e. Events area.now pass.old pass.new class [] ((Take superblock_pages true, Lacks e.pages e.largest) ∷ [])) }
{
    match take_run(rt, area, r, pass, SUPERBLOCK_PAGES, true) {
        Ok(run) => Ok(add_superblock(rt, area, r, pass, class, run)),
        Err(lack) => Err(NoSpace {
            pages: lack.wanted,
            largest: lack.largest,
        }),
    }
}

/// A superblock goes to the pages; if they hand it back, it is dropped.
pub(crate) fn give_superblock<R: Wait>(
    rt: &R,
    area: &Area,
    r: &Region,
    pass: &mut AreaPass,
    class: u8,
    run: Run,
)
    requires area { IsArea r.now area.now }
    requires own { Belongs area.now pass.old }
    requires class { IsClass class }
    requires run { IsSuperblock r.now (pool_name r.now area.now class).layout run.at run.pages run.words run.control }
    ensures own { Belongs area.now pass.new }
    ensures caller { number_of pass.new ≡ number_of pass.old }
    ensures given { (reply : PagesReply) × PageEvents area.now pass.old pass.new ((Give run.at superblock_pages true, reply) ∷ []) }
{
    let _handed_back = give_run(rt, area, r, pass, run);
}

/// An object of a class comes back. Its superblock goes to the pages if none of its objects is live any more and it is
/// not the active one.
pub(crate) fn take_object_back<R: Wait>(
    rt: &R,
    area: &Area,
    r: &Region,
    pass: &mut AreaPass,
    class: u8,
    object: Chunk,
) -> Result<(), Stranger>
    requires area { IsArea r.now area.now }
    requires own { Belongs area.now pass.old }
    requires class { IsClass class }
    requires here { object.part.region ≡ r.now }
    ensures own { Belongs area.now pass.new }
    ensures caller { number_of pass.new ≡ number_of pass.old }
    ensures freed { IfOk result (λ _. PoolEvents area.now pass.old pass.new class ((Free object.at object.bytes, Kept) ∷ [])
        ⊎ ((run : ℕ) × (reply : PagesReply) × Events area.now pass.old pass.new class ((Free object.at object.bytes, Whole run) ∷ []) ((Give run superblock_pages true, reply) ∷ []))) }
    ensures stranger { IfErr result (λ _. PoolEvents area.now pass.old pass.new class ((Free object.at object.bytes, NoObject) ∷ [])) }
    ensures back { IfErr result (λ s. s.chunk ≡ object) }
{
    match free_object(rt, area, r, pass, class, object) {
        Ok(None) => Ok(()),
        Ok(Some(run)) => {
            give_superblock(rt, area, r, pass, class, run);
            Ok(())
        }
        Err(chunk) => Err(Stranger { chunk }),
    }
}
