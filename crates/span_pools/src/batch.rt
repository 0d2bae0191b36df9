//! Many objects in one call: as `Pool::alloc` and `Pool::free` one after the other, so that a caller that keeps its own
//! free objects takes the pool's lock once for all of them.

ghost use Rattle.std.specs.Prelude.{◌≡◌, ◌-◌, ◌*◌, ◌≤◌, [], ◌∷◌, IfOk, IfErr, IfNone, IfSome, length, vec_capacity};
ghost use Rattle.span_pools.specs.Legal.{IsLegal, AllocMany, FreeMany, Kept, Objects, Stranger, Whole};
ghost use Rattle.span_pools.specs.PoolView.{IsSuperblock};
ghost use Rattle.span_pools.specs.Batch.{AreChunks, IsRest, gone, places};

use crate::pool::Pool;
use region_words::{Chunk, Region, Run};

impl Pool {
    /// Up to the given number of free objects, which are live then, into an empty list with room for them; fewer only
    /// if no other is free. Costs a call of `alloc` for each.
    pub fn alloc_many(&mut self, r: &Region, count: usize, objects: &mut Vec<Chunk>)
        requires here { self.old.region ≡ r.now }
        requires empty { objects.old.items ≡ [] }
        requires room { count ≤ vec_capacity objects.old }
        ensures same { self.new ≡ record self.old { state = self.new.state } }
        ensures given { IsLegal self.old.layout self.old.state (AllocMany count) (Objects (places objects.new.items)) self.new.state }
        ensures chunks { AreChunks self.old.region (8 * self.old.layout.size) objects.new.items }
        ensures capacity { vec_capacity objects.new ≡ vec_capacity objects.old }
    {
        for _ in 0..count {
            let Some(object) = self.alloc(r) else {
                return;
            };
            objects.push_reserved(object);
        }
    }

    /// Takes back the given number of objects, from the end of a list on, or all if there are fewer. Stops after one
    /// with which a superblock goes out, which it gives, and after one that no superblock has, which it hands back.
    /// Costs a call of `free` for each.
    pub fn free_many(
        &mut self,
        r: &Region,
        count: usize,
        objects: &mut Vec<Chunk>,
    ) -> Result<Option<Run>, Chunk>
        requires here { self.old.region ≡ r.now }
        requires chunks { AreChunks self.old.region (8 * self.old.layout.size) objects.old.items }
        ensures same { self.new ≡ record self.old { state = self.new.state } }
        ensures rest { IsRest count objects.old.items objects.new.items }
        ensures capacity { vec_capacity objects.new ≡ vec_capacity objects.old }
        ensures all { IfOk result (λ out. IfNone out (length objects.new.items ≡ length objects.old.items - count)) }
        ensures kept { IfOk result (λ out. IfNone out (IsLegal self.old.layout self.old.state (FreeMany (places (gone objects.old.items objects.new.items))) Kept self.new.state)) }
        ensures whole { IfOk result (λ out. IfSome out (λ run. IsLegal self.old.layout self.old.state (FreeMany (places (gone objects.old.items objects.new.items))) (Whole run.at) self.new.state)) }
        ensures run { IfOk result (λ out. IfSome out (λ run. IsSuperblock self.old.region self.old.layout run.at run.pages run.words run.control)) }
        ensures refused { IfErr result (λ _. IsLegal self.old.layout self.old.state (FreeMany (places (gone objects.old.items objects.new.items))) Stranger self.new.state) }
        ensures back { IfErr result (λ object. (rest : _) × (gone objects.old.items objects.new.items ≡ object ∷ rest)) }
    {
        for _ in 0..count {
            let Some(object) = objects.pop() else {
                return Ok(None);
            };
            match self.free(r, object) {
                Ok(None) => {}
                Ok(Some(run)) => return Ok(Some(run)),
                Err(object) => return Err(object),
            }
        }
        Ok(None)
    }
}
