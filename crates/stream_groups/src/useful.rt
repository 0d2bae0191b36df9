//! How many of the workers that are asked for pay.

ghost use Rattle.std.specs.Prelude.{◌<◌, ◌≤◌};

use std::thread::{Threads, available_parallelism};

/// As many workers as are asked for, but no more than the processors that the process may use: further threads would only
/// take turns with these. If the system does not say how many there are, all that are asked for.
pub fn useful_workers<R: Threads>(rt: &R, asked: u32) -> u32
    ensures most { result ≤ asked }
    ensures some { 0 < asked → 0 < result }
{
    match available_parallelism(rt) {
        Ok(processors) => (asked as usize).min(processors.get()) as u32,
        Err(_) => asked,
    }
}
