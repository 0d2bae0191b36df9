//! A value that was removed is loaded again, and then the loader is closed.

ghost use Rattle.std.specs.Prelude.{◌≡◌, ℕ, [], ◌∷◌, IfOk, None};
ghost use Rattle.single_flight.specs.Shown.{AreAll, keys_of, load_of};

use crate::squares::Squares;
use crate::threads::{Work, square};
use single_flight::{Loader, LoaderPass};
use std::alloc::{AllocError, Global};
use std::sync::Wait;
use std::time::Clock;

/// A loader of one square with one caller, and its pass.
fn for_one(alloc: Global) -> Result<(Loader<Squares>, LoaderPass<Squares>), AllocError>
    ensures keys { IfOk result (λ r. keys_of r.0 ≡ 1) }
    ensures all { IfOk result (λ r. AreAll r.0 (r.1 ∷ [])) }
    ensures free { IfOk result (λ r. (k : ℕ) → load_of r.1 k ≡ None) }
{
    let (loader, mut passes) = Loader::new(alloc, 1, 1)?;
    let Some(pass) = passes.pop() else {
        unreachable!()
    };
    Ok((loader, pass))
}

/// Ends a loader of one caller.
fn end_one(
    alloc: Global,
    loader: Loader<Squares>,
    pass: LoaderPass<Squares>,
) -> Result<(), AllocError>
    requires all { AreAll loader (pass ∷ []) }
{
    let mut passes = Vec::new(alloc);
    passes.push(pass)?;
    let _closed = loader.close(passes);
    Ok(())
}

/// Gets a square, removes it and gets it again: how many loads it took.
pub fn loads_of_two<R: Wait + Clock>(rt: &R, alloc: Global) -> Result<u64, AllocError> {
    let (loader, mut pass) = for_one(alloc)?;
    let mut work = Work {
        sum: 0,
        loads: 0,
        failed: 0,
    };
    let _first = square(rt, &loader, &mut pass, &mut work, 0);
    let _was_there = loader.remove(rt, &mut pass, 0);
    let _second = square(rt, &loader, &mut pass, &mut work, 0);
    end_one(alloc, loader, pass)?;
    Ok(work.loads)
}
