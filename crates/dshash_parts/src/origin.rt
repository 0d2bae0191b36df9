//! A value that only clauses read.

ghost use Rattle.std.specs.Prelude.{◌≡◌};
ghost use Rattle.std.specs.Borrow.{ftrue};

use std::marker::{Model, PhantomData};

/// A `T` as clauses see it. It has no bytes and owns nothing, so only the clause of `of` ties its value.
pub struct Origin<T> {
    marker: PhantomData<T>,
    pub ghost value: { T },
}

impl<T> Model for Origin<T> {
    ghost also_owns = { λ _. ftrue };
}

impl<T> Origin<T> {
    /// What clauses see of `x` now.
    pub fn of(x: &T) -> Origin<T>
        ensures { result.value ≡ x.now }
    {
        let _ = x;
        Origin {
            marker: PhantomData,
        }
    }
}

/// It owns nothing.
unsafe impl<T> Send for Origin<T> {}

unsafe impl<T> Sync for Origin<T> {}

impl<T> Drop for Origin<T> {
    fn drop(self) {
        let Self { marker: _ } = self;
    }
}
