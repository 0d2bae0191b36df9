//! Threads that want the same squares: each square is loaded by one thread, and the others sleep until it is there.
//!
//! `squares` says what is loaded and where it comes from, `threads` what each thread does, and `again` how a value is
//! removed and a loader closed.

#![tactic(auto)]

mod again;
mod squares;
mod threads;

use crate::again::loads_of_two;
use crate::threads::{Work, all_work, total_of};
use std::process::ExitCode;

/// The threads, and the squares that each of them wants.
const THREADS: u32 = 4;

const SQUARES: u32 = 20;

fn main(rt: HostRuntime) -> anyhow::Result<ExitCode> {
    let Ok(works) = all_work(&rt, rt.alloc(), THREADS, SQUARES) else {
        eprintln!(rt; "no memory")?;
        return Ok(ExitCode::FAILURE);
    };
    let Work {
        sum: _,
        loads,
        failed,
    } = total_of(&works);
    println!(rt;
        "{THREADS} threads, {SQUARES} squares each: {loads} loads, {failed} of them failed"
    )?;
    let Ok(loads) = loads_of_two(&rt, rt.alloc()) else {
        eprintln!(rt; "no memory")?;
        return Ok(ExitCode::FAILURE);
    };
    println!(rt; "one square, removed and loaded again: {loads} loads")?;
    Ok(ExitCode::SUCCESS)
}
