//! A job queue: the squares of the numbers below JOBS, worked out by two workers that go early.
//!
//! A leader sends the number of each job through a queue to one of the workers, and does what they leave. `job` says
//! what a job is, `lane` what the leader knows of a worker, `worker` does what comes, and `queue` runs them all.

#![tactic(auto)]

mod job;
mod lane;
mod queue;
mod worker;

use crate::queue::do_jobs;
use std::io;

/// How many jobs there are.
const JOBS: u64 = 1000;

/// After how many of them a worker goes, so that some are left.
const MOST: u64 = 200;

fn main(rt: HostRuntime) -> io::Result<()> {
    let done = do_jobs(&rt, rt.alloc(), JOBS, MOST)?;
    let count = done.len();
    let sum = done.iter().fold(0u64, |sum, d| sum.wrapping_add(d.result));
    println!(rt; "{count} jobs done, their results add up to {sum}")
}
