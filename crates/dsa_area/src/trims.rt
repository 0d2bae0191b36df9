//! How an area is used, and what of it lies idle in its pools.

ghost use Rattle.std.specs.Prelude.{◌≡◌, true, false, [], ◌∷◌};
ghost use Rattle.size_classes.specs.Classes.{IsClass};
ghost use Rattle.free_pages.specs.Legal.{Look, Shows};
ghost use Rattle.span_pools.specs.Legal.{Trim, Kept};
ghost use Rattle.dsa_area.specs.Shown.{Belongs, IsArea, number_of};
ghost use Rattle.dsa_area.specs.Requests.{IsTrimmed, PageEvents, PoolEvents};

use crate::area::{Area, AreaPass};
use crate::at_pages::look_at_pages;
use crate::at_pools::trim_pool;
use crate::objects::give_superblock;
use free_pages::Usage;
use region_words::Region;
use std::sync::Wait;

impl Area {
    /// How many pages are granted, those of the pools' superblocks among them, and the pages of the longest run that
    /// is free. It takes no memory, and may wait for the pages' lock; under it, it walks over the runs of pages, unless
    /// the longest one is known.
    pub fn usage<R: Wait>(&self, rt: &R, r: &Region, pass: &mut AreaPass) -> Usage
        requires area { IsArea r.now self.now }
        requires own { Belongs self.now pass.old }
        ensures own { Belongs self.now pass.new }
        ensures caller { number_of pass.new ≡ number_of pass.old }
        ensures shown { PageEvents self.now pass.old pass.new ((Look, Shows result.used result.largest) ∷ []) }
    {
        look_at_pages(rt, self, r, pass)
    }

    /// Gives the active superblock of a class to the pages if nothing in it is live, and says whether it did. Every
    /// other superblock goes there with its last live object. It takes no memory, and may wait for the pool's lock and
    /// for that of the pages, one after the other.
    pub fn trim<R: Wait>(&self, rt: &R, r: &Region, pass: &mut AreaPass, class: u8) -> bool
        requires area { IsArea r.now self.now }
        requires own { Belongs self.now pass.old }
        requires class { IsClass class }
        ensures own { Belongs self.now pass.new }
        ensures caller { number_of pass.new ≡ number_of pass.old }
        ensures trimmed { result ≡ true → IsTrimmed self.now pass.old pass.new class }
        ensures kept { result ≡ false → PoolEvents self.now pass.old pass.new class ((Trim, Kept) ∷ []) }
    {
        match trim_pool(rt, self, r, pass, class) {
            Some(run) => {
                give_superblock(rt, self, r, pass, class, run);
                true
            }
            None => false,
        }
    }
}
