//! Two threads add to one counter, each this many times. Then their passes meet, and the shelf is closed.

ghost use Rattle.std.specs.Prelude.{◌≡◌, ◌<◌, ◌≤◌, ◌*◌, ◌+◌, ◌%◌, ◌^◌, ℕ, length, [], ◌∷◌, IfOk};
ghost use Rattle.lock_book.specs.History.{calls_by};
ghost use Rattle.lock_book.specs.Shown.{Belongs, callers_of, count_of, left_of, mine_of, number_of, opened_of, opens_of, seen_of, whole_of};
ghost use Rattle.uses_book.specs.Counting.{IsCount, total_of};

use crate::Counter;
use lock_book::{Closed, Pass, Shelf, two_of};
use std::alloc::{AllocError, Global};
use std::sync::Wait;
use std::thread::{Threads, join};

/// A shelf of one counter at 0, with two callers.
fn for_two(alloc: Global) -> Result<(Shelf<Counter>, Pass<Counter>, Pass<Counter>), AllocError>
    ensures shelf { IfOk result (λ r. (count_of r.0 ≡ 1) × (callers_of r.0 ≡ 2) × (opens_of r.0 ≡ (tt, 0) ∷ [])) }
    ensures zero { IfOk result (λ r. Belongs r.0 r.1 × (number_of r.1 ≡ 0) × (mine_of r.1 0 ≡ [])) }
    ensures one { IfOk result (λ r. Belongs r.0 r.2 × (number_of r.2 ≡ 1) × (mine_of r.2 0 ≡ [])) }
{
    let mut values = Vec::new(alloc);
    values.push(Counter { value: 0 })?;
    let (shelf, passes) = Shelf::new(alloc, values, 2)?;
    let (zero, one) = two_of(passes);
    Ok((shelf, zero, one))
}

/// Adds 1 this many times, by the caller that has the pass.
fn add_times<R: Wait>(
    rt: &R,
    shelf: &Shelf<Counter>,
    mut pass: Pass<Counter>,
    times: u64,
) -> Pass<Counter>
    requires own { Belongs shelf.now pass }
    requires place { 0 < count_of shelf.now }
    requires fresh { mine_of pass 0 ≡ [] }
    ensures own { Belongs shelf.now result × (number_of result ≡ number_of pass) }
    ensures added { (total_of (mine_of result 0) ≡ times) × (length (mine_of result 0) ≡ times) }
{
    for _ in 0..times {
        let _before = shelf.call(rt, &(), &mut pass, 0, 1);
    }
    pass
}

/// Ends a shelf of two callers.
fn close_two(
    alloc: Global,
    shelf: Shelf<Counter>,
    zero: Pass<Counter>,
    one: Pass<Counter>,
) -> Result<Closed<Counter>, AllocError>
    requires shelf { (callers_of shelf ≡ 2) × (opens_of shelf ≡ (tt, 0) ∷ []) }
    requires zero { Belongs shelf zero × (number_of zero ≡ 0) }
    requires one { Belongs shelf one × (number_of one ≡ 1) }
    ensures left { IfOk result (λ c. (left_of c ≡ count_of shelf) × (opened_of c ≡ opens_of shelf)) }
    ensures zero { IfOk result (λ c. calls_by 0 (whole_of c 0) ≡ mine_of zero 0) }
    ensures one { IfOk result (λ c. calls_by 1 (whole_of c 0) ≡ mine_of one 0) }
    ensures others { IfOk result (λ c. (n : ℕ) → 2 ≤ n → calls_by n (whole_of c 0) ≡ []) }
    ensures lawful { IfOk result (λ c. IsCount (whole_of c 0)) }
{
    let mut passes = Vec::new(alloc);
    passes.push(zero)?;
    passes.push(one)?;
    Ok(shelf.close(passes))
}

/// Two threads add 1 this many times each. The closed shelf has each of their calls once, and no others.
pub fn closed_by_two<R: Threads + Wait + Sync>(
    rt: &R,
    alloc: Global,
    times: u64,
) -> Result<Closed<Counter>, AllocError>
    ensures left { IfOk result (λ c. (left_of c ≡ 1) × (opened_of c ≡ (tt, 0) ∷ [])) }
    ensures zero { IfOk result (λ c. (total_of (calls_by 0 (whole_of c 0)) ≡ times) × (length (calls_by 0 (whole_of c 0)) ≡ times)) }
    ensures one { IfOk result (λ c. (total_of (calls_by 1 (whole_of c 0)) ≡ times) × (length (calls_by 1 (whole_of c 0)) ≡ times)) }
    ensures others { IfOk result (λ c. (n : ℕ) → 2 ≤ n → calls_by n (whole_of c 0) ≡ []) }
    ensures lawful { IfOk result (λ c. IsCount (whole_of c 0)) }
{
    let (shelf, zero, one) = for_two(alloc)?;
    let shared = &shelf;
    let (mut zero, mut one) = join(
        rt,
        || add_times(rt, shared, zero, times),
        || add_times(rt, shared, one, times),
    );
    zero.meet(&shelf, &mut one);
    close_two(alloc, shelf, zero, one)
}

/// What the counter has after that.
pub fn added_by_two<R: Threads + Wait + Sync>(
    rt: &R,
    alloc: Global,
    times: u64,
) -> Result<u64, AllocError>
    ensures { IfOk result (λ n. n ≡ (2 * times) % 2 ^ 64) }
{
    let mut closed = closed_by_two(rt, alloc, times)?;
    let Some(counter) = closed.take_last() else {
        unreachable!()
    };
    Ok(counter.value)
}
