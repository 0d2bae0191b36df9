//! A cache of pages in shared memory, which threads call at once. Each page is under a name, and each name has an
//! owner. Only the owner puts pages there: what it gets is what it put, or that was evicted. At no moment are there
//! more entries than the cache may have, and the chunk of a page that is evicted goes back to the area at once.
//!
//! `page` is what is under a name; `cache` is what the threads share and what each of them owns; `calls` are the calls;
//! `laws` is what is always true; `threads` is a use.

#![tactic(auto)]

mod cache;
mod calls;
mod laws;
mod page;
mod threads;

ghost use Rattle.std.specs.Prelude.{◌≤◌, ◌*◌, IfOk};

use crate::cache::open;
use crate::threads::{all_work, entries_left, passes_of};
use std::alloc::{AllocError, Global};
use std::process::ExitCode;
use std::sync::Wait;
use std::thread::Threads;

/// The threads, and the entries that each may make before it has to evict one.
const THREADS: u32 = 4;

const SHARE: u64 = 100;

/// The pages that each thread puts, one after another.
const PAGES_EACH: u64 = 1000;

/// The pages of the cache's area, of 4 KiB each: 400 pages of 8,192 bytes at a time fit, and not 4,000.
const AREA_PAGES: u32 = 2048;

/// Has threads put and get pages in a cache: how many calls were answered, and how many entries it had at the end.
fn run<R: Threads + Wait + Sync>(
    rt: &R,
    alloc: Global,
    threads: u32,
    share: u64,
    pages: u64,
) -> Result<(u64, u64), AllocError>
    requires some { 1 ≤ threads }
    ensures few { IfOk result (λ r. r.1 ≤ threads * share) }
{
    let (cache, seats) = open(alloc, AREA_PAGES, threads, share)?;
    let done = all_work(rt, alloc, &cache, seats, pages)?;
    let (passes, good) = passes_of(alloc, done)?;
    Ok((good, entries_left(cache, passes)))
}

fn main(rt: HostRuntime) -> anyhow::Result<ExitCode> {
    let Ok((good, entries)) = run(&rt, rt.alloc(), THREADS, SHARE, PAGES_EACH) else {
        eprintln!(rt; "no memory")?;
        return Ok(ExitCode::FAILURE);
    };
    println!(rt; "{THREADS} threads: {good} pages put, {entries} entries left")?;
    Ok(ExitCode::SUCCESS)
}
