//! How a loader ends: all passes come home, and the whole history of each key is known.

ghost use Rattle.std.specs.Prelude.{ℕ, ◌<◌};
ghost use Rattle.lock_book.specs.Shown.{Ended as EndedShelf, whole_of};
ghost use Rattle.single_flight.specs.Laws.{IsHistory};
ghost use Rattle.single_flight.specs.Shown.{AreAll, keys_of};

use crate::cell::Cell;
use crate::loader::{Loader, LoaderPass};
use crate::values::Values;
use lock_book::Closed;

/// A loader that was closed. It shows the whole history of each key. The values are dropped with it.
pub type ClosedLoader<L> = Closed<Cell<L>>;

impl<L: Values + Send> Loader<L>
where
    L::Value: Send,
{
    /// Ends the loader. It takes all passes, in order of their numbers, makes a few loads for each, and takes no memory.
    pub fn close(self, passes: Vec<LoaderPass<L>>) -> ClosedLoader<L>
        requires all { AreAll self passes.items }
        ensures ended { EndedShelf self.shelf passes.items result }
        ensures lawful { (k : ℕ) → k < keys_of self → IsHistory (whole_of result k) }
    {
        let Loader { shelf } = self;
        shelf.close(passes)
    }
}
