//! The free objects of every size class that a caller keeps.
//!
//! There are spares of each class, in order, so a request finds its own by the number of its class. Whole pages are not
//! kept. `AreSpares` of `specs/Classes.antt` is what is so between two calls.

ghost use Rattle.std.specs.Prelude.{◌≡◌, ◌≤◌, ◌^◌, [], IfOk, IfErr};
ghost use Rattle.size_classes.specs.Classes.{IsClass};
ghost use Rattle.dsa_area.specs.Sizes.{chunk_size};
ghost use Rattle.dsa_area.specs.Shown.{Belongs, IsArea, number_of};
ghost use Rattle.free_pages.specs.Area.{class_count};
ghost use Rattle.area_spares.specs.Classes.{AreSpares, ComesOut, FirstBack, FirstBackUntil, GoesIn, GoesInBeside, IsShort, kept_in};

use crate::spares::Spares;
use dsa_area::{Area, AreaPass, NoSpace, Stranger};
use region_words::{Chunk, Region};
use size_classes::{class_of, class_with};
use std::alloc::{AllocError, Global};
use std::sync::Wait;

/// The number of the first size class.
const FIRST_CLASS: u8 = 2;

/// How many size classes there are.
const CLASSES: u8 = 36;

/// Free objects of every size class that a caller keeps. They are lost to the area if it is let go before
/// `give_back`.
#[derive(Drop)]
pub struct ClassSpares {
    /// Those of each class, from class 2 on.
    pub(crate) classes: Vec<Spares>,
}

impl ClassSpares {
    /// None are kept yet. Takes memory for two batches of each class, once: room for 1,078 objects in all.
    pub fn new(alloc: Global) -> Result<ClassSpares, AllocError>
        ensures spares { IfOk result (λ s. (region : _) → AreSpares region s) }
        ensures none { IfOk result (λ s. (class : _) → IsClass class → kept_in s class ≡ []) }
    {
        let mut classes = Vec::with_capacity(alloc, usize::from(CLASSES))?;
        for class in FIRST_CLASS..FIRST_CLASS + CLASSES {
            let spares = Spares::new(alloc, class)?;
            classes.push_reserved(spares);
        }
        Ok(ClassSpares { classes })
    }

    /// A chunk of `chunk_bytes(bytes)` bytes, which the caller owns from then on: of the spares of its class, as
    /// `Spares::alloc` gives it; or whole pages, which the area grants. It takes no memory, and waits for a lock only
    /// if none of the class is kept, or for whole pages.
    pub fn alloc<R: Wait>(
        &mut self,
        rt: &R,
        area: &Area,
        r: &Region,
        pass: &mut AreaPass,
        bytes: u64,
    ) -> Result<Chunk, NoSpace>
        requires area { IsArea r.now area.now }
        requires own { Belongs area.now pass.old }
        requires spares { AreSpares r.now self.old }
        requires some { (1 ≤ bytes) × (bytes ≤ 2 ^ 30) }
        ensures own { Belongs area.now pass.new }
        ensures caller { number_of pass.new ≡ number_of pass.old }
        ensures spares { AreSpares r.now self.new }
        ensures given { IfOk result (λ c. ComesOut area.now pass.old pass.new self.old self.new bytes c) }
        ensures size { IfOk result (λ c. c.bytes ≡ chunk_size bytes) }
        ensures holds { IfOk result (λ c. bytes ≤ c.bytes) }
        ensures here { IfOk result (λ c. c.part.region ≡ r.now) }
        ensures refused { IfErr result (λ e. IsShort area.now pass.old pass.new self.old self.new bytes e.pages e.largest) }
    {
        match class_of(bytes as u32) {
            Some(class) => self.classes[usize::from(class - FIRST_CLASS)].alloc(rt, area, r, pass),
            None => area.alloc(rt, r, pass, bytes),
        }
    }

    /// Keeps an object of a class, as `Spares::free` does; whole pages go back to the area. It takes no memory, and
    /// waits for a lock only if a batch goes back, or whole pages do.
    pub fn free<R: Wait>(
        &mut self,
        rt: &R,
        area: &Area,
        r: &Region,
        pass: &mut AreaPass,
        chunk: Chunk,
    ) -> Result<(), Stranger>
        requires area { IsArea r.now area.now }
        requires own { Belongs area.now pass.old }
        requires spares { AreSpares r.now self.old }
        requires here { chunk.part.region ≡ r.now }
        ensures own { Belongs area.now pass.new }
        ensures caller { number_of pass.new ≡ number_of pass.old }
        ensures spares { AreSpares r.now self.new }
        ensures kept { IfOk result (λ _. GoesIn area.now pass.old pass.new self.old self.new chunk) }
        ensures stranger { IfErr result (λ s. GoesInBeside area.now pass.old pass.new self.old self.new chunk s.chunk) }
    {
        match class_with(chunk.bytes) {
            Some(class) => self.classes[usize::from(class - FIRST_CLASS)].free(
                rt, area, r, pass, chunk,
            ),
            None => area.free(rt, r, pass, chunk),
        }
    }

    /// All kept objects go back, class after class, each once. Stops after one that is none of the area's, which comes
    /// back; the others are kept, and a further call goes on with them. It takes no memory. Costs what
    /// `Spares::give_back` costs for each class of which some are kept.
    pub fn give_back<R: Wait>(
        &mut self,
        rt: &R,
        area: &Area,
        r: &Region,
        pass: &mut AreaPass,
    ) -> Result<(), Stranger>
        requires area { IsArea r.now area.now }
        requires own { Belongs area.now pass.old }
        requires spares { AreSpares r.now self.old }
        ensures own { Belongs area.now pass.new }
        ensures caller { number_of pass.new ≡ number_of pass.old }
        ensures spares { AreSpares r.now self.new }
        ensures none { IfOk result (λ _. (class : _) → IsClass class → kept_in self.new class ≡ []) }
        ensures all { IfOk result (λ _. FirstBack area.now self.old class_count pass.old pass.new) }
        ensures stranger { IfErr result (λ s. FirstBackUntil area.now self.old pass.old self.new pass.new s.chunk) }
    {
        for at in 0..usize::from(CLASSES) {
            match self.classes[at].give_back(rt, area, r, pass) {
                Ok(()) => {}
                Err(stranger) => return Err(stranger),
            }
        }
        Ok(())
    }
}
