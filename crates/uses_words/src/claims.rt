//! Each call once, and two threads that draw from one counter.

ghost use Rattle.std.specs.Prelude.{◌≡◌, ◌<◌, ◌≤◌, ◌^◌, ℕ, [], IfOk, IsTrue};
ghost use Rattle.scan_claim.specs.Drawing.{flat, is_spent, times};
ghost use Rattle.scan_claim.specs.Shown.{Belongs, blocks_of, callers_of, draws_of, lists_of, number_of};

use scan_claim::{ClaimSeat, Claims, Drawn};
use std::alloc::{AllocError, Global};
use std::sync::Wait;
use std::test::Fail;
use std::thread::{Threads, join};

/// A counter for two callers.
fn for_two(alloc: Global, blocks: u64) -> Result<(Claims, ClaimSeat, ClaimSeat), AllocError>
    requires { blocks ≤ 2 ^ 32 }
    ensures counts { IfOk result (λ r. (blocks_of r.0 ≡ blocks) × (callers_of r.0 ≡ 2)) }
    ensures zero { IfOk result (λ r. Belongs r.0 r.1 × (number_of r.1 ≡ 0)) }
    ensures one { IfOk result (λ r. Belongs r.0 r.2 × (number_of r.2 ≡ 1)) }
{
    let (claims, mut seats) = Claims::new(alloc, blocks, 2)?;
    let Some(one) = seats.pop() else {
        unreachable!()
    };
    let Some(zero) = seats.pop() else {
        unreachable!()
    };
    Ok((claims, zero, one))
}

/// Ends a counter for two callers.
fn close_two(
    alloc: Global,
    claims: Claims,
    zero: ClaimSeat,
    one: ClaimSeat,
) -> Result<Drawn, AllocError>
    requires callers { callers_of claims ≡ 2 }
    requires zero { Belongs claims zero × (number_of zero ≡ 0) }
    requires one { Belongs claims one × (number_of one ≡ 1) }
    ensures once { IfOk result (λ d. (x : ℕ) → times x (flat (lists_of d)) ≤ 1) }
    ensures all { IfOk result (λ d. IsTrue (is_spent (blocks_of claims) (draws_of zero)) → (x : ℕ) → x < blocks_of claims → times x (flat (lists_of d)) ≡ 1) }
{
    let mut seats = Vec::new(alloc);
    seats.push(zero)?;
    seats.push(one)?;
    Ok(claims.close(seats))
}

/// Draws until there is no more.
fn draw_all<R: Wait>(rt: &R, claims: &Claims, mut seat: ClaimSeat) -> ClaimSeat
    requires { Belongs claims.now seat }
    ensures same { Belongs claims.now result × (number_of result ≡ number_of seat) }
    ensures spent { IsTrue (is_spent (blocks_of claims.now) (draws_of result)) }
{
    for _ in rt.forever() {
        if seat.claim(claims).is_none() {
            return seat;
        }
    }
    unreachable!()
}

/// Two threads draw all numbers below the blocks, each once.
fn drawn_by_two<R: Threads + Wait + Sync>(
    rt: &R,
    alloc: Global,
    blocks: u64,
) -> Result<Drawn, AllocError>
    requires { blocks ≤ 2 ^ 32 }
    ensures { IfOk result (λ d. (x : ℕ) → x < blocks → times x (flat (lists_of d)) ≡ 1) }
{
    let (claims, zero, one) = for_two(alloc, blocks)?;
    let counter = &claims;
    let (zero, one) = join(
        rt,
        || draw_all(rt, counter, zero),
        || draw_all(rt, counter, one),
    );
    close_two(alloc, claims, zero, one)
}

#[test]
fn two_callers_draw_three_blocks(rt: HostRuntime) -> Result<(), Fail> {
    let (claims, mut zero, mut one) = for_two(rt.alloc(), 3)?;
    assert_eq!(rt; zero.claim(&claims), Some(0));
    assert_eq!(rt; zero.claim(&claims), Some(1));
    assert_eq!(rt; one.claim(&claims), Some(2));
    assert_eq!(rt; one.claim(&claims), None);
    assert_eq!(rt; zero.claim(&claims), None);
    assert_eq!(rt; one.claim(&claims), None);
    assert_eq!(rt; zero.claim(&claims), None);
    let _drawn = close_two(rt.alloc(), claims, zero, one)?;
    Ok(())
}

#[test]
fn no_blocks(rt: HostRuntime) -> Result<(), Fail> {
    let (claims, mut zero, mut one) = for_two(rt.alloc(), 0)?;
    assert_eq!(rt; one.claim(&claims), None);
    assert_eq!(rt; zero.claim(&claims), None);
    Ok(())
}

#[test]
fn two_threads_draw_all(rt: HostRuntime) -> Result<(), Fail> {
    let _drawn = drawn_by_two(&rt, rt.alloc(), 1000)?;
    Ok(())
}
