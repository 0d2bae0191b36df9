//! How an area ends: all passes come home, and the whole histories are known.
//!
//! Each pass is taken apart into its two, which are joined to those of the callers after it, so that no list of passes
//! is made.

ghost use Rattle.std.specs.Prelude.{map};
ghost use Rattle.lock_book.specs.Shown.{IsJoined};
ghost use Rattle.dsa_area.specs.Shown.{AreAll, IsArea};
ghost use Rattle.dsa_area.specs.Ending.{Ended};

use crate::area::{Area, AreaPass};
use crate::pages::LockedPages;
use crate::pools::LockedPool;
use lock_book::{Closed, Joined};

/// An area that was closed. It shows the whole history of the pages and of each pool.
#[derive(Drop)]
pub struct ClosedArea {
    pub(crate) pages: Closed<LockedPages>,
    pub(crate) pools: Closed<LockedPool>,
}

/// The passes of the pages and those of the pools, joined from the last caller's to the first.
fn join_passes(area: &Area, mut passes: Vec<AreaPass>) -> (Joined<LockedPages>, Joined<LockedPool>)
    requires area { (region : _) × IsArea region area.now }
    requires all { AreAll area.now passes.items }
    ensures pages { IsJoined area.now.pages (map (λ p. p.pages) passes.items) result.0 }
    ensures pools { IsJoined area.now.pools (map (λ p. p.pools) passes.items) result.1 }
{
    let Some(last) = passes.pop() else {
        unreachable!()
    };
    let mut pages = Joined::new(&area.pages, last.pages);
    let mut pools = Joined::new(&area.pools, last.pools);
    while let Some(pass) = passes.pop() {
        pages = pages.join(&area.pages, pass.pages);
        pools = pools.join(&area.pools, pass.pools);
    }
    (pages, pools)
}

impl Area {
    /// Ends the area. It takes all passes, in order of their numbers, makes a few loads for each, and takes no memory.
    pub fn close(self, passes: Vec<AreaPass>) -> ClosedArea
        requires area { (region : _) × IsArea region self }
        requires all { AreAll self passes.items }
        ensures ended { Ended self passes.items result }
    {
        let (page_passes, pool_passes) = join_passes(&self, passes);
        let Area {
            first: _,
            count: _,
            pages,
            pools,
        } = self;
        ClosedArea {
            pages: pages.close_joined(page_passes),
            pools: pools.close_joined(pool_passes),
        }
    }
}
