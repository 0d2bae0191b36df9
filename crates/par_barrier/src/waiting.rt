//! The call that waits for the end of a phase.

ghost use Rattle.std.specs.Prelude.{◌≡◌, ◌⊎◌, ℕ, [], ◌∷◌, ◌++◌, replicate, length, IfOk, IfErr};
ghost use Rattle.par_barrier.specs.declared.history.BarrierCall.TheVariants.{Arrive, Look};
ghost use Rattle.par_barrier.specs.declared.history.BarrierReply.TheVariants.{Waiting};

use crate::answers::{Arrival, Arrived, BarrierAnswer};
use crate::barrier::{Barrier, BarrierPass};
use std::sync::Wait;

impl Barrier {
    ghost use Rattle.par_barrier.specs.Shown.{Belongs, CalledAll, arrived_reply, number_of, waited};

    /// The caller arrives, and waits until the phase has ended: it looks each time that the end of a phase may have
    /// come, and sleeps in between. It answers as its last call did, so NotIn or Twice if it could not arrive. It may
    /// wait forever, if a caller that takes part neither arrives nor detaches.
    pub fn arrive_and_wait<R: Wait>(
        &self,
        rt: &R,
        pass: &mut BarrierPass,
    ) -> Result<Arrived, BarrierAnswer>
        requires own { Belongs self.now pass.old }
        ensures own { Belongs self.now pass.new × (number_of pass.new ≡ number_of pass.old) }
        ensures called { CalledAll pass.old pass.new ((Arrive, arrived_reply result) ∷ []) ⊎ ((looks : ℕ) × CalledAll pass.old pass.new (waited looks (arrived_reply result))) }
    {
        match self.arrive(rt, pass) {
            Ok(Arrival::Released { phase, elected }) => Ok(Arrived { phase, elected }),
            Ok(Arrival::Waiting) => self.wait(rt, pass),
            Err(why) => Err(why),
        }
    }

    /// Looks until the phase has ended. What is announced after `seen` was read, and so after each look that found the
    /// phase on, ends the wait for it.
    fn wait<R: Wait>(&self, rt: &R, pass: &mut BarrierPass) -> Result<Arrived, BarrierAnswer>
        requires own { Belongs self.now pass.old }
        ensures own { Belongs self.now pass.new × (number_of pass.new ≡ number_of pass.old) }
        ensures called { (looks : ℕ) × CalledAll pass.old pass.new (replicate looks (Look, Waiting) ++ (Look, arrived_reply result) ∷ []) }
    {
        for _ in rt.forever() {
            let seen = self.shelf.news(0);
            match self.look(rt, pass) {
                Ok(Arrival::Waiting) => self.shelf.await_news(rt, &mut pass.pass, 0, seen),
                Ok(Arrival::Released { phase, elected }) => return Ok(Arrived { phase, elected }),
                Err(why) => return Err(why),
            }
        }
        unreachable!()
    }
}
