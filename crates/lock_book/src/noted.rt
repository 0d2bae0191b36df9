//! A value that only clauses read. It has no bytes, so that a locked value can carry what its last call was.

ghost use Rattle.std.specs.Prelude.{◌≡◌};
ghost use Rattle.std.specs.Borrow.{ftrue};

use std::marker::{Model, PhantomData};

/// It owns nothing, so only the clause of `of` ties its value.
pub struct Noted<Y> {
    marker: PhantomData<Y>,
    pub ghost value: { Y },
}

impl<Y> Model for Noted<Y> {
    ghost also_owns = { λ _. ftrue };
}

impl<Y> Noted<Y> {
    /// What the caller's function `f` makes of `x`.
    pub fn of<X>(x: &X) -> Noted<Y>
        ghost f: { X → Y }
        ensures { result.value ≡ f x.now }
    {
        let _ = x;
        Noted {
            marker: PhantomData,
        }
    }
}

/// It owns nothing.
unsafe impl<Y> Send for Noted<Y> {}

unsafe impl<Y> Sync for Noted<Y> {}

impl<Y> Drop for Noted<Y> {
    fn drop(self) {
        let Self { marker: _ } = self;
    }
}
