//! A number behind a lock of `lock_book`, to which all threads add 1.

ghost use Rattle.std.specs.Prelude.{◌≡◌, ℕ, ◌*◌, ◌%◌, ◌^◌, ◌<◌, ◌≤◌, [], ◌∷◌, length, slice_index_or, IfOk};
ghost use mathlib.Core.Option.{some};
ghost use lib.ListN.{get_elem?};
ghost use Rattle.lock_book.specs.Shown.{AreAll, Belongs, callers_of, count_of, mine_of, number_of, opens_of};

use crate::counter::Counter;
use lock_book::{Pass, Shelf};
use std::alloc::{AllocError, Global};
use std::sync::Wait;
use std::thread::{Threads, map_vec};

/// Adds 1 this many times, by the caller that has the pass.
fn adds<R: Wait>(
    rt: &R,
    shelf: &Shelf<Counter>,
    mut pass: Pass<Counter>,
    calls: u64,
) -> Pass<Counter>
    requires own { Belongs shelf.now pass }
    requires place { 0 < count_of shelf.now }
    requires fresh { mine_of pass 0 ≡ [] }
    ensures own { Belongs shelf.now result }
    ensures caller { number_of result ≡ number_of pass }
    ensures added { length (mine_of result 0) ≡ calls }
{
    for _ in 0..calls {
        shelf.call(rt, &(), &mut pass, 0, ());
    }
    pass
}

/// Has a thread for each pass add 1 this many times. The passes as they come back.
fn all_add<R: Threads + Wait + Sync>(
    rt: &R,
    shelf: &Shelf<Counter>,
    passes: Vec<Pass<Counter>>,
    calls: u64,
) -> Result<Vec<Pass<Counter>>, AllocError>
    requires place { 0 < count_of shelf.now }
    requires own { (i : ℕ) (p : _) → i < length passes.items → p ≡ slice_index_or passes.items i p → Belongs shelf.now p }
    requires fresh { (i : ℕ) (p : _) → i < length passes.items → p ≡ slice_index_or passes.items i p → mine_of p 0 ≡ [] }
    ensures count { IfOk result (λ v. length v.items ≡ length passes.items) }
    ensures own { IfOk result (λ v. (i : ℕ) (d : _) → i < length passes.items → Belongs shelf.now (slice_index_or v.items i d)) }
    ensures callers { IfOk result (λ v. (i : ℕ) (d : _) → i < length passes.items → number_of (slice_index_or v.items i d) ≡ number_of (slice_index_or passes.items i d)) }
    ensures added { IfOk result (λ v. (i : ℕ) (d : _) → i < length passes.items → length (mine_of (slice_index_or v.items i d) 0) ≡ calls) }
{
    map_vec(
        rt,
        passes,
        &|pass: Pass<Counter>| -> Pass<Counter>
            requires { Belongs shelf.now pass × (0 < count_of shelf.now) × (mine_of pass 0 ≡ []) }
            ensures { Belongs shelf.entry.now result × (number_of result ≡ number_of pass) × (length (mine_of result 0) ≡ calls) }
        { adds(rt, shelf, pass, calls) },
    )
}

/// Ends a shelf of one number whose callers made this many calls each, and gives the number.
fn value_of(shelf: Shelf<Counter>, passes: Vec<Pass<Counter>>, calls: u64) -> u64
    requires one { (count_of shelf ≡ 1) × (opens_of shelf ≡ (tt, 0) ∷ []) }
    requires all { AreAll shelf passes.items }
    requires each { (n : ℕ) (p : _) → get_elem? passes.items n ≡ some p → length (mine_of p 0) ≡ calls }
    ensures { result ≡ (callers_of shelf * calls) % 2 ^ 64 }
{
    let _ = calls;
    let mut closed = shelf.close(passes);
    let Some(counter) = closed.take_last() else {
        unreachable!()
    };
    counter.value
}

/// Has this many threads add 1 this many times each to a number that was 0, and gives the number.
pub fn lock_load<R: Threads + Wait + Sync>(
    rt: &R,
    alloc: Global,
    threads: u32,
    calls: u64,
) -> Result<u64, AllocError>
    requires some { 1 ≤ threads }
    ensures { IfOk result (λ n. n ≡ (threads * calls) % 2 ^ 64) }
{
    let mut values = Vec::new(alloc);
    values.push(Counter { value: 0 })?;
    let (shelf, passes) = Shelf::new(alloc, values, threads)?;
    let done = all_add(rt, &shelf, passes, calls)?;
    Ok(value_of(shelf, done, calls))
}
