//! How a barrier ends: all passes come home, and its whole history is known.
//!
//! The passes are joined from the last caller's to the first, so that no list of them is made.

ghost use Rattle.std.specs.Prelude.{map};
ghost use Rattle.lock_book.specs.Shown.{IsJoined};
ghost use Rattle.par_barrier.specs.Shown.{AreAll};
ghost use Rattle.par_barrier.specs.Ending.{Ended};

use crate::barrier::{Barrier, BarrierPass};
use crate::parties::Parties;
use lock_book::{Closed, Joined};

/// A barrier that was closed. It shows the whole history.
#[derive(Drop)]
pub struct ClosedBarrier {
    pub(crate) shelf: Closed<Parties>,
}

/// The passes of all callers, joined.
fn join_passes(barrier: &Barrier, mut passes: Vec<BarrierPass>) -> Joined<Parties>
    requires all { AreAll barrier.now passes.items }
    ensures { IsJoined barrier.now.shelf (map (λ p. p.pass) passes.items) result }
{
    let Some(last) = passes.pop() else {
        unreachable!()
    };
    let mut joined = Joined::new(&barrier.shelf, last.pass);
    while let Some(pass) = passes.pop() {
        joined = joined.join(&barrier.shelf, pass.pass);
    }
    joined
}

impl Barrier {
    /// Ends the barrier. It takes all passes, in order of their numbers, makes a few loads for each, and takes no
    /// memory.
    pub fn close(self, passes: Vec<BarrierPass>) -> ClosedBarrier
        requires all { AreAll self passes.items }
        ensures ended { Ended self passes.items result }
    {
        let joined = join_passes(&self, passes);
        let Barrier { shelf } = self;
        ClosedBarrier {
            shelf: shelf.close_joined(joined),
        }
    }
}
