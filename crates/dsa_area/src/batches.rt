//! Many objects of a class in one turn at its pool, for a caller that keeps its own free objects.
//!
//! Each turn is one event of the pool, whose call and reply say all objects. The pages are not asked for a superblock:
//! if the pool has no free object, the list stays empty, and `Area::alloc` is there to get one.

ghost use Rattle.std.specs.Prelude.{◌≡◌, ◌≤◌, [], ◌∷◌, IfOk, IfErr, vec_capacity};
ghost use Rattle.size_classes.specs.Classes.{IsClass, class_size};
ghost use Rattle.span_pools.specs.Legal.{AllocMany, FreeMany, Objects, Stranger as NoObject};
ghost use Rattle.span_pools.specs.Batch.{AreChunks, gone, places};
ghost use Rattle.dsa_area.specs.Pools.{IsRestOf};
ghost use Rattle.dsa_area.specs.Shown.{Belongs, IsArea, number_of};
ghost use Rattle.dsa_area.specs.Requests.{AreTakenBack, PoolEvents};

use crate::area::{Area, AreaPass};
use crate::at_pools::{alloc_objects, free_objects};
use crate::objects::give_superblock;
use crate::requests::Stranger;
use region_words::{Chunk, Region};
use std::sync::Wait;

impl Area {
    /// Up to the given number of free objects of a class, which the caller owns from then on, in a list that was empty
    /// and has room for them; fewer only if its pool has no other. It takes no memory, asks the pages for nothing, and
    /// may wait for the pool's lock. Costs one turn at the pool.
    pub fn alloc_many<R: Wait>(
        &self,
        rt: &R,
        r: &Region,
        pass: &mut AreaPass,
        class: u8,
        count: usize,
        empty: Vec<Chunk>,
    ) -> Vec<Chunk>
        requires area { IsArea r.now self.now }
        requires own { Belongs self.now pass.old }
        requires class { IsClass class }
        requires empty { empty.items ≡ [] }
        requires room { count ≤ vec_capacity empty }
        ensures own { Belongs self.now pass.new }
        ensures caller { number_of pass.new ≡ number_of pass.old }
        ensures given { PoolEvents self.now pass.old pass.new class ((AllocMany count, Objects (places result.items)) ∷ []) }
        ensures chunks { AreChunks r.now (class_size class) result.items }
        ensures capacity { vec_capacity result ≡ vec_capacity empty }
    {
        alloc_objects(rt, self, r, pass, class, count, empty)
    }

    /// Takes the given number of objects of a class back, from the end of a list on, or all if there are fewer; and
    /// gives the rest of the list. Stops after one with which a superblock goes to the pages, and after one that is
    /// none of the pool's, which comes back as it was. It takes no memory, and may wait for the pool's lock and for
    /// that of the pages, one after the other. Costs one turn at the pool, and one at the pages if a superblock goes
    /// there.
    pub fn free_many<R: Wait>(
        &self,
        rt: &R,
        r: &Region,
        pass: &mut AreaPass,
        class: u8,
        count: usize,
        objects: Vec<Chunk>,
    ) -> (Vec<Chunk>, Result<(), Stranger>)
        requires area { IsArea r.now self.now }
        requires own { Belongs self.now pass.old }
        requires class { IsClass class }
        requires chunks { AreChunks r.now (class_size class) objects.items }
        ensures own { Belongs self.now pass.new }
        ensures caller { number_of pass.new ≡ number_of pass.old }
        ensures rest { IsRestOf count objects result.0 }
        ensures freed { IfOk result.1 (λ _. AreTakenBack self.now pass.old pass.new class (places (gone objects.items result.0.items))) }
        ensures stranger { IfErr result.1 (λ _. PoolEvents self.now pass.old pass.new class ((FreeMany (places (gone objects.items result.0.items)), NoObject) ∷ [])) }
        ensures back { IfErr result.1 (λ s. (others : _) × (gone objects.items result.0.items ≡ s.chunk ∷ others)) }
    {
        let (rest, ended) = free_objects(rt, self, r, pass, class, count, objects);
        match ended {
            Ok(None) => (rest, Ok(())),
            Ok(Some(run)) => {
                give_superblock(rt, self, r, pass, class, run);
                (rest, Ok(()))
            }
            Err(chunk) => (rest, Err(Stranger { chunk })),
        }
    }
}
