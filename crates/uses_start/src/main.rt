//! A program to begin with: two threads share a region with an area, a hash table and a queue in it.
//!
//! One thread puts the square of each number into the table, under the number, and sends the number to the other, which
//! gets the square that is there. `shared` has what both share and what each owns, `threads` what each does.

#![tactic(auto)]

mod shared;
mod threads;

ghost use Rattle.std.specs.Prelude.{◌≤◌, IfSome};

use crate::shared::{new_queue, open};
use crate::threads::work_together;
use std::alloc::Global;
use std::process::ExitCode;
use std::sync::Wait;
use std::thread::Threads;

/// How many numbers are sent.
const NUMBERS: u64 = 100;

/// Has two threads work on this many numbers: how many were sent, and how many of them had their square in the table.
/// None if there is no memory, or no room in the area. At the end the queue's chunk goes back to the area.
fn run<R: Threads + Wait + Sync>(rt: &R, alloc: Global, count: u64) -> Option<(u64, u64)>
    ensures { IfSome result (λ n. (n.0 ≤ count) × (n.1 ≤ count)) }
{
    let (shared, mut one, other) = open(rt, alloc)?;
    let (s, q) = new_queue(rt, alloc, &shared, &mut one)?;
    let (mut one, chunk, counts) = work_together(rt, &shared, one, other, s, q, count);
    let _ = shared.area.free(rt, &shared.region, &mut one.area, chunk);
    Some(counts)
}

fn main(rt: HostRuntime) -> anyhow::Result<ExitCode> {
    let Some((sent, found)) = run(&rt, rt.alloc(), NUMBERS) else {
        eprintln!(rt; "no memory")?;
        return Ok(ExitCode::FAILURE);
    };
    println!(rt; "{sent} numbers sent, {found} squares found")?;
    Ok(ExitCode::SUCCESS)
}
