//! Passes that are joined one by one, from the last to the first, so that a shelf is closed with no list of them.
//!
//! A structure over several shelves has one list, of tokens with a pass of each shelf: it takes its tokens apart and
//! joins the passes of each shelf. `IsJoined` says which passes were joined; a pass that is joined learns what those
//! after it have seen, so what is seen then begins with what each had seen.

ghost use Rattle.std.specs.Prelude.{◌≡◌, ◌+◌, List, [], ◌∷◌};
ghost use Rattle.lock_book.specs.declared.view.Stage.TheVariants.{Idle};

use crate::Kept;
use crate::gather::join_behind;
use crate::shelf::{Pass, Shelf};
use crate::table::Place;

/// The passes of the callers from one number on to the last, joined.
#[derive(Drop)]
pub struct Joined<T: Kept> {
    pub(crate) whole: Place<T>,
    pub ghost free: { whole.me.1 ≡ [] },
    pub ghost idle: { whole.me.0.stage ≡ Idle },
}

impl<T: Kept> Joined<T> {
    ghost use Rattle.lock_book.specs.Shown.{Belongs, IsJoined, callers_of, first_of, number_of};

    /// Begins with the pass of the last caller. It does nothing when it runs.
    pub fn new(shelf: &Shelf<T>, last: Pass<T>) -> Joined<T>
        requires own { Belongs shelf.now last }
        requires last { number_of last + 1 ≡ callers_of shelf.now }
        ensures { IsJoined shelf.now (last ∷ []) result }
    {
        let _ = shelf;
        Joined {
            whole: last.into_seat(),
        }
    }

    /// Joins the pass of the caller before these: a few loads. It waits for nobody and takes no memory.
    pub fn join(self, shelf: &Shelf<T>, before: Pass<T>) -> Joined<T>
        requires joined { (passes : List _) × IsJoined shelf.now passes self }
        requires own { Belongs shelf.now before }
        requires before { number_of before + 1 ≡ first_of self }
        ensures { (passes : List _) → IsJoined shelf.now passes self → IsJoined shelf.now (before ∷ passes) result }
    {
        let Joined { whole } = self;
        let mut seat = before.into_seat();
        join_behind(&shelf.board, &mut seat, whole);
        Joined { whole: seat }
    }
}
