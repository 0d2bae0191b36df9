//! What each thread does: it sums up all squares, and counts the loads that it makes.

ghost use Rattle.std.specs.Prelude.{◌≡◌, ◌<◌, ◌≤◌, ◌*◌, ◌%◌, ◌^◌, ℕ, length, slice_index_or, IfOk, IfSome, None};
ghost use Rattle.lock_book.specs.Shown.{number_of};
ghost use Rattle.single_flight.specs.Shown.{Belongs, keys_of, load_of};
ghost use Rattle.load_once.specs.Squares.{squares_below};

use crate::squares::{Squares, fetch};
use single_flight::{Found, Loader, LoaderPass};
use std::alloc::{AllocError, Global};
use std::sync::Wait;
use std::thread::{Threads, map_vec};
use std::time::Clock;

/// What a thread did: the sum of the squares, modulo 2^64, the loads that it made, and how many of them failed.
#[derive(Clone, Copy, Drop)]
pub struct Work {
    pub sum: u64,
    pub loads: u64,
    pub failed: u64,
}

impl Work {
    /// One more load, with what it brought.
    fn count(&mut self, fetched: Option<u64>)
        ensures sum { self.new.sum ≡ self.old.sum }
    {
        self.loads = self.loads.saturating_add(1);
        if fetched.is_none() {
            self.failed = self.failed.saturating_add(1);
        }
    }
}

/// One try: the square, if it is there or this thread can load it.
fn try_square<R: Wait + Clock>(
    rt: &R,
    loader: &Loader<Squares>,
    pass: &mut LoaderPass<Squares>,
    work: &mut Work,
    key: u32,
) -> Option<u64>
    requires own { Belongs loader.now pass.old }
    requires key { key < keys_of loader.now }
    requires free { (k : ℕ) → load_of pass.old k ≡ None }
    ensures own { Belongs loader.now pass.new × (number_of pass.new ≡ number_of pass.old) }
    ensures free { (k : ℕ) → load_of pass.new k ≡ None }
    ensures sum { work.new.sum ≡ work.old.sum }
    ensures square { IfSome result (λ v. v ≡ (key * key) % 2 ^ 64) }
{
    match loader.get(rt, pass, key) {
        Found::Value(value) => Some(value),
        Found::Failed => None,
        Found::Load(load) => {
            let fetched = fetch(rt, &load);
            match fetched {
                Some(value) => loader.put(rt, pass, load, value),
                None => loader.give_up(rt, pass, load),
            }
            work.count(fetched);
            fetched
        }
    }
}

/// The square of the key, whichever thread loads it.
pub fn square<R: Wait + Clock>(
    rt: &R,
    loader: &Loader<Squares>,
    pass: &mut LoaderPass<Squares>,
    work: &mut Work,
    key: u32,
) -> u64
    requires own { Belongs loader.now pass.old }
    requires key { key < keys_of loader.now }
    requires free { (k : ℕ) → load_of pass.old k ≡ None }
    ensures own { Belongs loader.now pass.new × (number_of pass.new ≡ number_of pass.old) }
    ensures free { (k : ℕ) → load_of pass.new k ≡ None }
    ensures sum { work.new.sum ≡ work.old.sum }
    ensures square { result ≡ (key * key) % 2 ^ 64 }
{
    for _ in rt.forever() {
        if let Some(value) = try_square(rt, loader, pass, work, key) {
            return value;
        }
    }
    unreachable!()
}

/// What one thread does: it sums up the squares of all keys below `keys`.
fn sum_up<R: Wait + Clock>(
    rt: &R,
    loader: &Loader<Squares>,
    mut pass: LoaderPass<Squares>,
    keys: u32,
) -> Work
    requires own { Belongs loader.now pass }
    requires keys { keys ≤ keys_of loader.now }
    requires free { (k : ℕ) → load_of pass k ≡ None }
    ensures sum { result.sum ≡ squares_below keys }
{
    let mut work = Work {
        sum: 0,
        loads: 0,
        failed: 0,
    };
    for key in 0..keys {
        let square = square(rt, loader, &mut pass, &mut work, key);
        work.sum = work.sum.wrapping_add(square);
    }
    work
}

/// What each thread did, one for each pass of the loader.
fn works_of<R: Threads + Wait + Clock + Sync>(
    rt: &R,
    loader: &Loader<Squares>,
    passes: Vec<LoaderPass<Squares>>,
    keys: u32,
) -> Result<Vec<Work>, AllocError>
    requires keys { keys ≤ keys_of loader.now }
    requires own { (i : ℕ) (p : _) → i < length passes.items → p ≡ slice_index_or passes.items i p → Belongs loader.now p × ((k : ℕ) → load_of p k ≡ None) }
    ensures count { IfOk result (λ v. length v.items ≡ length passes.items) }
    ensures sums { IfOk result (λ v. (i : ℕ) (w : _) → i < length passes.items → (slice_index_or v.items i w).sum ≡ squares_below keys) }
{
    map_vec(
        rt,
        passes,
        &|pass: LoaderPass<Squares>| -> Work
            requires { (keys ≤ keys_of loader.now) × (Belongs loader.now pass × ((k : ℕ) → load_of pass k ≡ None)) }
            ensures { result.sum ≡ squares_below keys }
        { sum_up(rt, loader, pass, keys) },
    )
}

/// What each of `threads` threads did, with one loader.
pub fn all_work<R: Threads + Wait + Clock + Sync>(
    rt: &R,
    alloc: Global,
    threads: u32,
    keys: u32,
) -> Result<Vec<Work>, AllocError>
    requires threads { 0 < threads }
    requires keys { 0 < keys }
    ensures count { IfOk result (λ v. length v.items ≡ threads) }
    ensures sums { IfOk result (λ v. (i : ℕ) (w : _) → i < threads → (slice_index_or v.items i w).sum ≡ squares_below keys) }
{
    let (loader, passes) = Loader::new(alloc, keys, threads)?;
    works_of(rt, &loader, passes, keys)
}

/// What the threads did together; the sum is that of the last.
pub fn total_of(works: &[Work]) -> Work {
    let mut total = Work {
        sum: 0,
        loads: 0,
        failed: 0,
    };
    for work in works {
        total.sum = work.sum;
        total.loads = total.loads.saturating_add(work.loads);
        total.failed = total.failed.saturating_add(work.failed);
    }
    total
}
