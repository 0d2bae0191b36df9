//! Passes exchange what they have seen.

ghost use Rattle.std.specs.Prelude.{◌≡◌};
ghost use Rattle.dsa_area.specs.Shown.{Belongs, Met, SeeTheSame, number_of};

use crate::area::{Area, AreaPass};

impl AreaPass {
    /// Afterwards both passes have seen, of the pages and of each pool, the longer of the two histories that they had
    /// seen. It waits for nobody and takes no memory.
    pub fn meet(&mut self, area: &Area, other: &mut AreaPass)
        requires own { Belongs area.now self.old }
        requires other { Belongs area.now other.old }
        ensures own { Belongs area.now self.new }
        ensures other { Belongs area.now other.new }
        ensures caller { number_of self.new ≡ number_of self.old }
        ensures other_caller { number_of other.new ≡ number_of other.old }
        ensures this { Met self.old other.old self.new }
        ensures that { Met other.old self.old other.new }
        ensures alike { SeeTheSame self.new other.new }
    {
        self.pages.meet(&area.pages, &mut other.pages);
        self.pools.meet(&area.pools, &mut other.pools);
    }
}
