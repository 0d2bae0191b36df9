//! What crosses threads: a struct over shelves by reference, and a struct over passes by value, generic or not. At the
//! end a shelf is closed, with no list of its passes.

ghost use Rattle.std.specs.Prelude.{◌≡◌, [], ◌∷◌};
ghost use Rattle.lock_book.specs.Shown.{Belongs, Ended, callers_of, number_of};

use crate::counter::Counter;
use crate::numbered::{Numbered, Tag};
use lock_book::{Closed, Joined, Kept, Pass, Shelf};
use std::thread::{Threads, join};

/// Two shelves, as a structure above `lock_book` has them.
#[derive(Drop)]
pub struct Cabinet<O: Tag> {
    pub tallies: Shelf<Counter>,
    pub drawers: Shelf<Numbered<O>>,
}

/// One caller's passes of both. A generic struct over passes repeats that its values can be kept.
#[derive(Drop)]
pub struct CabinetPass<O: Tag>
where
    Numbered<O>: Kept,
{
    pub tallies: Pass<Counter>,
    pub drawers: Pass<Numbered<O>>,
}

/// Both threads have the cabinet, and each has its own passes.
pub fn cross<R: Threads + Sync, O: Tag>(
    rt: &R,
    cabinet: &Cabinet<O>,
    one: CabinetPass<O>,
    two: CabinetPass<O>,
) -> (CabinetPass<O>, CabinetPass<O>) {
    join(
        rt,
        move || through(cabinet, one),
        move || through(cabinet, two),
    )
}

fn through<O: Tag>(_cabinet: &Cabinet<O>, passes: CabinetPass<O>) -> CabinetPass<O> {
    passes
}

/// Ends a shelf of two callers.
pub fn end_two<T: Kept>(shelf: Shelf<T>, zero: Pass<T>, one: Pass<T>) -> Closed<T>
    requires callers { callers_of shelf ≡ 2 }
    requires zero { Belongs shelf zero × (number_of zero ≡ 0) }
    requires one { Belongs shelf one × (number_of one ≡ 1) }
    ensures { Ended shelf (zero ∷ one ∷ []) result }
{
    let last = Joined::new(&shelf, one);
    let all = last.join(&shelf, zero);
    shelf.close_joined(all)
}

/// A tag: the number 1.
pub struct One;

impl Tag for One {
    ghost tag = { 1 };

    fn tag() -> u64 {
        1
    }
}

/// A borrowed pass at one tag.
pub struct Lent<'a> {
    pub pass: &'a mut Pass<Numbered<One>>,
}
