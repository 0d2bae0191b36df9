//! Calls that wait for nobody and wake nobody: each is one turn, made at once or not at all. So a static library may have
//! them, which may neither put a thread to sleep nor wake one.

ghost use Rattle.std.specs.Prelude.{◌≡◌, IfNone, IfSome};
ghost use Rattle.par_barrier.specs.Legal.{MayAnswer};

use crate::barrier::{Barrier, BarrierPass};
use crate::history::{BarrierCall, BarrierReply};
use crate::parties::Ask;

impl Barrier {
    ghost use Rattle.par_barrier.specs.Shown.{Belongs, Called, Missed, number_of};

    /// Makes a call at once, or not if another caller is at the barrier at this moment: then the pass counts a miss. It
    /// waits for nobody, wakes nobody and takes no memory. A caller that sleeps in `arrive_and_wait` does not learn of a
    /// phase that ends by such a call, so either all callers of a barrier try, or none does.
    pub fn try_call(&self, pass: &mut BarrierPass, call: BarrierCall) -> Option<BarrierReply>
        requires own { Belongs self.now pass.old }
        ensures own { Belongs self.now pass.new × (number_of pass.new ≡ number_of pass.old) }
        ensures called { IfSome result (λ reply. Called pass.old pass.new call reply) }
        ensures fits { IfSome result (MayAnswer call) }
        ensures busy { IfNone result (Missed pass.old pass.new) }
    {
        let by = pass.pass.number();
        match self
            .shelf
            .try_call(&(), &mut pass.pass, 0, Ask { by, call })
        {
            Ok(reply) => Some(reply),
            Err(_) => None,
        }
    }
}
