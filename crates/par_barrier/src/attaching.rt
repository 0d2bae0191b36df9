//! The call by which all callers take part before the first of them arrives.

ghost use Rattle.std.specs.Prelude.{ℕ, ◌≡◌};
ghost use mathlib.Core.Option.{some};
ghost use lib.ListN.{get_elem?};

use crate::barrier::{Barrier, BarrierPass};
use std::sync::Wait;

impl Barrier {
    ghost use Rattle.par_barrier.specs.Shown.{AreAll, HasAttached, TakesPart};

    /// All callers take part from now on; one that does already stays. It takes the passes of all, so call it in the
    /// thread that made the barrier, before the threads start: then nobody arrives before everyone takes part. It may
    /// wait for its turns, one for each pass, and takes no memory.
    pub fn attach_all<R: Wait>(&self, rt: &R, passes: &mut [BarrierPass])
        requires all { AreAll self.now passes.old }
        ensures all { AreAll self.now passes.new }
        ensures attached { (k : ℕ) (p q : _) → get_elem? passes.old k ≡ some p → get_elem? passes.new k ≡ some q → HasAttached p q }
        ensures take_part { (k : ℕ) (q : _) → get_elem? passes.new k ≡ some q → TakesPart q }
    {
        for pass in passes.iter_mut() {
            let _answer = self.attach(rt, pass);
        }
    }
}
