//! The free objects of one size class that a caller keeps.
//!
//! Up to two batches are kept. If none is left, a turn at the pool gives a batch; if two are there, a turn takes one
//! back. So a caller that allocates and frees in any order of few steps takes the pool's lock once for a batch of
//! calls. `IsSpares` of `specs/Spares.antt` is what is so between two calls.

ghost use Rattle.std.specs.Prelude.{◌≡◌, ◌*◌, ◌<◌, ◌≤◌, ◌++◌, [], ◌∷◌, IfOk, IfErr, length, vec_capacity};
ghost use Rattle.size_classes.specs.Classes.{IsClass, class_size};
ghost use Rattle.span_pools.specs.Legal.{AllocMany, FreeMany, Objects, Stranger as NoObject};
ghost use Rattle.span_pools.specs.Batch.{AreChunks, gone, places};
ghost use Rattle.dsa_area.specs.Shown.{Belongs, IsArea, number_of};
ghost use Rattle.dsa_area.specs.Requests.{AreTakenBack, PoolEvents};
ghost use Rattle.area_spares.specs.Spares.{AllGoBack, GoBackUntil, IsKept, IsKeptBeside, IsLacking, IsSpares, IsTakenOut, batch_of, class_of, kept_of};

use dsa_area::{Area, AreaPass, NoSpace, Stranger};
use region_words::{Chunk, Region};
use size_classes::class_bytes;
use std::alloc::{AllocError, Global};
use std::mem;
use std::sync::Wait;

/// The objects that one turn at a pool gives or takes at most.
const MOST: u32 = 32;

/// The bytes that a batch has at most, if it has more than one object.
const BATCH_BYTES: u32 = 4096;

/// Free objects of one size class that a caller keeps. They are lost to the area if this value is dropped before
/// `give_back`.
#[derive(Drop)]
pub struct Spares {
    /// The size class.
    pub(crate) class: u8,
    /// How many objects one turn at the pool gives or takes.
    pub(crate) batch: usize,
    /// Where an empty list comes from while the other is at the pool.
    pub(crate) alloc: Global,
    /// The objects, the next one at the end.
    pub(crate) kept: Vec<Chunk>,
}

/// How many objects of a class a turn at its pool gives or takes: the number that fits into the bytes of a page, but
/// one at least and 32 at most.
fn batch_for(class: u8) -> usize
    requires class { IsClass class }
    ensures { (1 ≤ result) × (result ≤ 32) }
{
    let fit = BATCH_BYTES / class_bytes(class);
    if fit == 0 {
        1
    } else if fit < MOST {
        fit as usize
    } else {
        MOST as usize
    }
}

impl Spares {
    /// None are kept yet. Takes memory for two batches, once.
    pub fn new(alloc: Global, class: u8) -> Result<Spares, AllocError>
        requires class { IsClass class }
        ensures class { IfOk result (λ s. class_of s ≡ class) }
        ensures none { IfOk result (λ s. kept_of s ≡ []) }
        ensures spares { IfOk result (λ s. (region : _) → IsSpares region s) }
    {
        let batch = batch_for(class);
        let kept = Vec::with_capacity(alloc, 2 * batch)?;
        Ok(Spares {
            class,
            batch,
            alloc,
            kept,
        })
    }

    /// How many objects are kept.
    pub fn count(&self) -> usize
        ensures { result ≡ length (kept_of self.now) }
    {
        self.kept.len()
    }

    /// An object of the class, which the caller owns from then on: the one that was kept last; else one of a batch that
    /// the pool gives; else what the area grants, which may get a superblock first. `NoSpace` comes only if none is
    /// kept and the pool and the pages had none. It takes no memory, and waits for a lock only if none is kept.
    pub fn alloc<R: Wait>(
        &mut self,
        rt: &R,
        area: &Area,
        r: &Region,
        pass: &mut AreaPass,
    ) -> Result<Chunk, NoSpace>
        requires area { IsArea r.now area.now }
        requires own { Belongs area.now pass.old }
        requires spares { IsSpares r.now self.old }
        ensures own { Belongs area.now pass.new }
        ensures caller { number_of pass.new ≡ number_of pass.old }
        ensures spares { IsSpares r.now self.new }
        ensures same { (class_of self.new ≡ class_of self.old) × (batch_of self.new ≡ batch_of self.old) }
        ensures given { IfOk result (λ c. IsTakenOut area.now pass.old pass.new (class_of self.old) (batch_of self.old) (kept_of self.old) (kept_of self.new) c) }
        ensures size { IfOk result (λ c. c.bytes ≡ class_size (class_of self.old)) }
        ensures here { IfOk result (λ c. c.part.region ≡ r.now) }
        ensures refused { IfErr result (λ e. IsLacking area.now pass.old pass.new (class_of self.old) (batch_of self.old) (kept_of self.old) (kept_of self.new) e.pages e.largest) }
    {
        if self.count() == 0 {
            return self.alloc_anew(rt, area, r, pass);
        }
        Ok(self.take_kept())
    }

    /// The object that was kept last.
    fn take_kept(&mut self) -> Chunk
        requires some { 0 < length (kept_of self.old) }
        ensures same { (class_of self.new ≡ class_of self.old) × (batch_of self.new ≡ batch_of self.old) }
        ensures last { kept_of self.old ≡ kept_of self.new ++ result ∷ [] }
        ensures spares { (region : _) → IsSpares region self.old → IsSpares region self.new × (result.bytes ≡ class_size (class_of self.old)) × (result.part.region ≡ region) }
    {
        match self.kept.pop() {
            Some(chunk) => chunk,
            None => unreachable!(),
        }
    }

    /// `alloc` if none is kept.
    fn alloc_anew<R: Wait>(
        &mut self,
        rt: &R,
        area: &Area,
        r: &Region,
        pass: &mut AreaPass,
    ) -> Result<Chunk, NoSpace>
        requires area { IsArea r.now area.now }
        requires own { Belongs area.now pass.old }
        requires spares { IsSpares r.now self.old }
        requires none { length (kept_of self.old) ≡ 0 }
        ensures own { Belongs area.now pass.new }
        ensures caller { number_of pass.new ≡ number_of pass.old }
        ensures spares { IsSpares r.now self.new }
        ensures same { (class_of self.new ≡ class_of self.old) × (batch_of self.new ≡ batch_of self.old) }
        ensures given { IfOk result (λ c. IsTakenOut area.now pass.old pass.new (class_of self.old) (batch_of self.old) (kept_of self.old) (kept_of self.new) c) }
        ensures size { IfOk result (λ c. c.bytes ≡ class_size (class_of self.old)) }
        ensures here { IfOk result (λ c. c.part.region ≡ r.now) }
        ensures refused { IfErr result (λ e. IsLacking area.now pass.old pass.new (class_of self.old) (batch_of self.old) (kept_of self.old) (kept_of self.new) e.pages e.largest) }
    {
        self.refill(rt, area, r, pass);
        if self.kept.len() == 0 {
            return area.alloc(rt, r, pass, u64::from(class_bytes(self.class)));
        }
        Ok(self.take_kept())
    }

    /// A batch of the pool's free objects, if none is kept.
    fn refill<R: Wait>(&mut self, rt: &R, area: &Area, r: &Region, pass: &mut AreaPass)
        requires area { IsArea r.now area.now }
        requires own { Belongs area.now pass.old }
        requires spares { IsSpares r.now self.old }
        requires none { length (kept_of self.old) ≡ 0 }
        ensures own { Belongs area.now pass.new }
        ensures caller { number_of pass.new ≡ number_of pass.old }
        ensures spares { IsSpares r.now self.new }
        ensures same { (class_of self.new ≡ class_of self.old) × (batch_of self.new ≡ batch_of self.old) }
        ensures given { PoolEvents area.now pass.old pass.new (class_of self.old) ((AllocMany (batch_of self.old), Objects (places (kept_of self.new))) ∷ []) }
    {
        let empty = mem::replace(&mut self.kept, Vec::new(self.alloc));
        self.kept = area.alloc_many(rt, r, pass, self.class, self.batch, empty);
    }

    /// Keeps an object of the class, which is the keeper's from then on. If two batches are kept already, a batch goes
    /// back first. `Stranger` has one of those that were kept, which is none of the area's; the chunk itself is kept
    /// all the same. It takes no memory, and waits for a lock only if a batch goes back.
    pub fn free<R: Wait>(
        &mut self,
        rt: &R,
        area: &Area,
        r: &Region,
        pass: &mut AreaPass,
        chunk: Chunk,
    ) -> Result<(), Stranger>
        requires area { IsArea r.now area.now }
        requires own { Belongs area.now pass.old }
        requires spares { IsSpares r.now self.old }
        requires size { chunk.bytes ≡ class_size (class_of self.old) }
        requires here { chunk.part.region ≡ r.now }
        ensures own { Belongs area.now pass.new }
        ensures caller { number_of pass.new ≡ number_of pass.old }
        ensures spares { IsSpares r.now self.new }
        ensures same { (class_of self.new ≡ class_of self.old) × (batch_of self.new ≡ batch_of self.old) }
        ensures kept { IfOk result (λ _. IsKept area.now pass.old pass.new (class_of self.old) (kept_of self.old) (kept_of self.new) chunk) }
        ensures stranger { IfErr result (λ s. IsKeptBeside area.now pass.old pass.new (class_of self.old) (kept_of self.old) (kept_of self.new) chunk s.chunk) }
    {
        if self.kept.len() < 2 * self.batch {
            self.kept.push_reserved(chunk);
            return Ok(());
        }
        let done = self.flush(rt, area, r, pass, self.batch);
        self.kept.push_reserved(chunk);
        done
    }

    /// Up to this many of the kept objects go back in one turn at the pool, and one at least.
    fn flush<R: Wait>(
        &mut self,
        rt: &R,
        area: &Area,
        r: &Region,
        pass: &mut AreaPass,
        count: usize,
    ) -> Result<(), Stranger>
        requires area { IsArea r.now area.now }
        requires own { Belongs area.now pass.old }
        requires spares { IsSpares r.now self.old }
        requires some { (0 < count) × (0 < length (kept_of self.old)) }
        ensures own { Belongs area.now pass.new }
        ensures caller { number_of pass.new ≡ number_of pass.old }
        ensures spares { IsSpares r.now self.new }
        ensures same { (class_of self.new ≡ class_of self.old) × (batch_of self.new ≡ batch_of self.old) }
        ensures rest { kept_of self.old ≡ kept_of self.new ++ gone (kept_of self.old) (kept_of self.new) }
        ensures fewer { length (kept_of self.new) < length (kept_of self.old) }
        ensures freed { IfOk result (λ _. AreTakenBack area.now pass.old pass.new (class_of self.old) (places (gone (kept_of self.old) (kept_of self.new)))) }
        ensures stranger { IfErr result (λ _. PoolEvents area.now pass.old pass.new (class_of self.old) ((FreeMany (places (gone (kept_of self.old) (kept_of self.new))), NoObject) ∷ [])) }
        ensures back { IfErr result (λ s. (others : _) × (gone (kept_of self.old) (kept_of self.new) ≡ s.chunk ∷ others)) }
    {
        let kept = mem::replace(&mut self.kept, Vec::new(self.alloc));
        let (rest, done) = area.free_many(rt, r, pass, self.class, count, kept);
        self.kept = rest;
        done
    }

    /// All kept objects go back, each once. Stops after one that is none of the area's, which comes back; the others
    /// are kept, and a further call goes on with them. It takes no memory. Costs a turn at the pool for all that are
    /// kept, and one more for each superblock that goes back to the pages with them.
    pub fn give_back<R: Wait>(
        &mut self,
        rt: &R,
        area: &Area,
        r: &Region,
        pass: &mut AreaPass,
    ) -> Result<(), Stranger>
        requires area { IsArea r.now area.now }
        requires own { Belongs area.now pass.old }
        requires spares { IsSpares r.now self.old }
        ensures own { Belongs area.now pass.new }
        ensures caller { number_of pass.new ≡ number_of pass.old }
        ensures spares { IsSpares r.now self.new }
        ensures same { (class_of self.new ≡ class_of self.old) × (batch_of self.new ≡ batch_of self.old) }
        ensures none { IfOk result (λ _. kept_of self.new ≡ []) }
        ensures all { IfOk result (λ _. AllGoBack area.now (class_of self.old) pass.old (kept_of self.old) pass.new) }
        ensures stranger { IfErr result (λ s. GoBackUntil area.now (class_of self.old) pass.old (kept_of self.old) pass.new (kept_of self.new) s.chunk) }
    {
        let most = 2 * self.batch;
        while self.kept.len() > 0 {
            match self.flush(rt, area, r, pass, most) {
                Ok(()) => {}
                Err(stranger) => return Err(stranger),
            }
        }
        Ok(())
    }
}
