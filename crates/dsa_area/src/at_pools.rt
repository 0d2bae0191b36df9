//! The calls that a request makes at a pool, each one event of `span_pools`.

ghost use Rattle.std.specs.Prelude.{◌≡◌, ◌+◌, ◌≤◌, [], ◌∷◌, IfNone, IfSome, IfOk, IfErr, vec_capacity};
ghost use Rattle.size_classes.specs.Classes.{IsClass, class_size, first_class};
ghost use Rattle.span_pools.specs.Legal.{Alloc, Add, Free, AllocMany, FreeMany, Trim, Object, Full, Kept, Whole, Stranger, Objects};
ghost use Rattle.span_pools.specs.PoolView.{IsSuperblock};
ghost use Rattle.span_pools.specs.Batch.{AreChunks, gone, places};
ghost use Rattle.dsa_area.specs.Pools.{IsRestOf};
ghost use Rattle.dsa_area.specs.Shown.{Belongs, IsArea, number_of, pool_name};
ghost use Rattle.dsa_area.specs.Requests.{PoolEvents};

use crate::area::{Area, AreaPass};
use crate::pools::{PoolAnswer, PoolAsk};
use crate::sizes::FIRST_CLASS;
use region_words::{Chunk, Region, Run};
use std::sync::Wait;

/// The place of a class's pool on the shelf.
fn place_of(class: u8) -> usize
    requires { IsClass class }
    ensures { result + first_class ≡ class }
{
    usize::from(class - FIRST_CLASS)
}

/// A free object of a class, if its pool has one. It waits for the pool's lock.
pub(crate) fn alloc_object<R: Wait>(
    rt: &R,
    area: &Area,
    r: &Region,
    pass: &mut AreaPass,
    class: u8,
) -> Option<Chunk>
    requires area { IsArea r.now area.now }
    requires own { Belongs area.now pass.old }
    requires class { IsClass class }
    ensures own { Belongs area.now pass.new }
    ensures caller { number_of pass.new ≡ number_of pass.old }
    ensures given { IfSome result (λ c. PoolEvents area.now pass.old pass.new class ((Alloc, Object c.at) ∷ [])) }
    ensures size { IfSome result (λ c. c.bytes ≡ class_size class) }
    ensures here { IfSome result (λ c. c.part.region ≡ r.now) }
    ensures full { IfNone result (PoolEvents area.now pass.old pass.new class ((Alloc, Full) ∷ [])) }
{
    match area.pools.call(
        rt,
        r,
        &mut pass.pools,
        place_of(class),
        PoolAsk::AllocObject,
    ) {
        PoolAnswer::Given(object) => Some(object),
        PoolAnswer::AllLive => None,
        _ => unreachable!(),
    }
}

/// A superblock comes in: an object of it. It waits for the pool's lock.
pub(crate) fn add_superblock<R: Wait>(
    rt: &R,
    area: &Area,
    r: &Region,
    pass: &mut AreaPass,
    class: u8,
    run: Run,
) -> Chunk
    requires area { IsArea r.now area.now }
    requires own { Belongs area.now pass.old }
    requires class { IsClass class }
    requires run { IsSuperblock r.now (pool_name r.now area.now class).layout run.at run.pages run.words run.control }
    ensures own { Belongs area.now pass.new }
    ensures caller { number_of pass.new ≡ number_of pass.old }
    ensures added { PoolEvents area.now pass.old pass.new class ((Add run.at, Object result.at) ∷ []) }
    ensures size { result.bytes ≡ class_size class }
    ensures here { result.part.region ≡ r.now }
{
    match area.pools.call(
        rt,
        r,
        &mut pass.pools,
        place_of(class),
        PoolAsk::AddRun(run),
    ) {
        PoolAnswer::Given(object) => object,
        _ => unreachable!(),
    }
}

/// Gives an object of a class back, or gets it again; and the superblock that goes out with it. It waits for the pool's
/// lock.
pub(crate) fn free_object<R: Wait>(
    rt: &R,
    area: &Area,
    r: &Region,
    pass: &mut AreaPass,
    class: u8,
    object: Chunk,
) -> Result<Option<Run>, Chunk>
    requires area { IsArea r.now area.now }
    requires own { Belongs area.now pass.old }
    requires class { IsClass class }
    requires here { object.part.region ≡ r.now }
    ensures own { Belongs area.now pass.new }
    ensures caller { number_of pass.new ≡ number_of pass.old }
    ensures freed { IfOk result (λ out. IfNone out (PoolEvents area.now pass.old pass.new class ((Free object.at object.bytes, Kept) ∷ []))) }
    ensures emptied { IfOk result (λ out. IfSome out (λ run. PoolEvents area.now pass.old pass.new class ((Free object.at object.bytes, Whole run.at) ∷ []))) }
    ensures run { IfOk result (λ out. IfSome out (λ run. IsSuperblock r.now (pool_name r.now area.now class).layout run.at run.pages run.words run.control)) }
    ensures refused { IfErr result (λ _. PoolEvents area.now pass.old pass.new class ((Free object.at object.bytes, Stranger) ∷ [])) }
    ensures back { IfErr result (λ back. back ≡ object) }
{
    match area.pools.call(
        rt,
        r,
        &mut pass.pools,
        place_of(class),
        PoolAsk::FreeObject(object),
    ) {
        PoolAnswer::Freed => Ok(None),
        PoolAnswer::Emptied(run) => Ok(Some(run)),
        PoolAnswer::NotOurs(object) => Err(object),
        _ => unreachable!(),
    }
}

/// Up to the given number of free objects of a class, in an empty list. It waits for the pool's lock.
pub(crate) fn alloc_objects<R: Wait>(
    rt: &R,
    area: &Area,
    r: &Region,
    pass: &mut AreaPass,
    class: u8,
    count: usize,
    empty: Vec<Chunk>,
) -> Vec<Chunk>
    requires area { IsArea r.now area.now }
    requires own { Belongs area.now pass.old }
    requires class { IsClass class }
    requires empty { empty.items ≡ [] }
    requires room { count ≤ vec_capacity empty }
    ensures own { Belongs area.now pass.new }
    ensures caller { number_of pass.new ≡ number_of pass.old }
    ensures given { PoolEvents area.now pass.old pass.new class ((AllocMany count, Objects (places result.items)) ∷ []) }
    ensures chunks { AreChunks r.now (class_size class) result.items }
    ensures capacity { vec_capacity result ≡ vec_capacity empty }
{
    match area.pools.call(
        rt,
        r,
        &mut pass.pools,
        place_of(class),
        PoolAsk::AllocObjects(count, empty),
    ) {
        PoolAnswer::Filled(objects) => objects,
        _ => unreachable!(),
    }
}

/// Gives up to the given number of objects of a class back, from the end of a list on: the rest of it; and the
/// superblock that goes out with the last of them, or the last of them again, with which it stopped. It waits for the
/// pool's lock.
pub(crate) fn free_objects<R: Wait>(
    rt: &R,
    area: &Area,
    r: &Region,
    pass: &mut AreaPass,
    class: u8,
    count: usize,
    objects: Vec<Chunk>,
) -> (Vec<Chunk>, Result<Option<Run>, Chunk>)
    requires area { IsArea r.now area.now }
    requires own { Belongs area.now pass.old }
    requires class { IsClass class }
    requires chunks { AreChunks r.now (class_size class) objects.items }
    ensures own { Belongs area.now pass.new }
    ensures caller { number_of pass.new ≡ number_of pass.old }
    ensures rest { IsRestOf count objects result.0 }
    ensures freed { IfOk result.1 (λ out. IfNone out (PoolEvents area.now pass.old pass.new class ((FreeMany (places (gone objects.items result.0.items)), Kept) ∷ []))) }
    ensures emptied { IfOk result.1 (λ out. IfSome out (λ run. PoolEvents area.now pass.old pass.new class ((FreeMany (places (gone objects.items result.0.items)), Whole run.at) ∷ []))) }
    ensures run { IfOk result.1 (λ out. IfSome out (λ run. IsSuperblock r.now (pool_name r.now area.now class).layout run.at run.pages run.words run.control)) }
    ensures refused { IfErr result.1 (λ _. PoolEvents area.now pass.old pass.new class ((FreeMany (places (gone objects.items result.0.items)), Stranger) ∷ [])) }
    ensures back { IfErr result.1 (λ back. (others : _) × (gone objects.items result.0.items ≡ back ∷ others)) }
{
    match area.pools.call(
        rt,
        r,
        &mut pass.pools,
        place_of(class),
        PoolAsk::FreeObjects(count, objects),
    ) {
        PoolAnswer::FreedMany(rest) => (rest, Ok(None)),
        PoolAnswer::EmptiedMany(rest, run) => (rest, Ok(Some(run))),
        PoolAnswer::NotAllOurs(rest, object) => (rest, Err(object)),
        _ => unreachable!(),
    }
}

/// The active superblock of a class, if nothing in it is live. It waits for the pool's lock.
pub(crate) fn trim_pool<R: Wait>(
    rt: &R,
    area: &Area,
    r: &Region,
    pass: &mut AreaPass,
    class: u8,
) -> Option<Run>
    requires area { IsArea r.now area.now }
    requires own { Belongs area.now pass.old }
    requires class { IsClass class }
    ensures own { Belongs area.now pass.new }
    ensures caller { number_of pass.new ≡ number_of pass.old }
    ensures whole { IfSome result (λ run. PoolEvents area.now pass.old pass.new class ((Trim, Whole run.at) ∷ [])) }
    ensures run { IfSome result (λ run. IsSuperblock r.now (pool_name r.now area.now class).layout run.at run.pages run.words run.control) }
    ensures kept { IfNone result (PoolEvents area.now pass.old pass.new class ((Trim, Kept) ∷ [])) }
{
    match area
        .pools
        .call(rt, r, &mut pass.pools, place_of(class), PoolAsk::TrimPool)
    {
        PoolAnswer::Emptied(run) => Some(run),
        PoolAnswer::Untouched => None,
        _ => unreachable!(),
    }
}
