//! What is loaded, and the source that it comes from.

ghost use Rattle.std.specs.Prelude.{◌≡◌, ◌*◌, ◌%◌, ◌^◌, IfSome};
ghost use Rattle.single_flight.specs.Shown.{key_of};

use single_flight::{Load, Values};
use std::thread::sleep;
use std::time::{Clock, Duration};

/// The square of each key, modulo 2^64.
pub struct Squares;

impl Values for Squares {
    type Value = u64;

    ghost holds = { λ k v. v ≡ (k * k) % 2 ^ 64 };
}

/// Gives a square after a while, as a disk or a server would. The first load of each fifth key fails.
pub fn fetch<C: Clock>(clock: &C, load: &Load) -> Option<u64>
    ensures { IfSome result (λ v. v ≡ (key_of load.now * key_of load.now) % 2 ^ 64) }
{
    sleep(clock, Duration::from_millis(5));
    if load.key() % 5 == 0 && load.number() == 0 {
        return None;
    }
    let key = u64::from(load.key());
    Some(key.wrapping_mul(key))
}
