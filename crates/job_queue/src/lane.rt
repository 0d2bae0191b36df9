//! The leader's side of a worker: a queue of job numbers, and the worker's jobs.

ghost use Rattle.std.specs.Prelude.{◌≡◌, ◌*◌, ◌+◌, ◌≤◌, ◌++◌, [], ◌∷◌, map, IfOk, OnOk};
ghost use Rattle.job_queue.specs.Jobs.{done_of};
ghost use Rattle.job_queue.specs.Lanes.{IsLane, IsNew, IsReady, jobs_in};

use crate::job::{Done, do_job};
use mq_handle::{Receiver, SendDone, Sender, attach};
use mq_ring::{Ring, is_ring_size};
use region_words::{Chunk, Region};
use std::alloc::{AllocError, Global};
use std::sync::Wait;

/// The words of a queue's ring, a power of two. A job takes two, so 32 may wait for a worker.
pub const RING_WORDS: u64 = 64;

/// The leader's side of a worker.
#[derive(Drop)]
pub struct Lane {
    pub sender: Sender,
    /// The numbers of the worker's jobs, in order. If it was found gone, the last of them were not sent.
    pub jobs: Vec<u64>,
    /// Whether the worker was not found gone.
    pub open: bool,
}

/// A lane in the words of a chunk, and the end of its queue for the worker.
pub fn new_lane(alloc: Global, r: &Region, chunk: Chunk) -> Result<(Lane, Receiver), AllocError>
    requires here { chunk.part.region ≡ r.now }
    requires room { 8 * (RING_WORDS + 3) ≤ chunk.bytes }
    ensures { IfOk result (λ made. IsNew r.now made.0 made.1) }
{
    if !is_ring_size(RING_WORDS) {
        return Err(AllocError);
    }
    let (tx, rx) = Ring::create(r, chunk, RING_WORDS, 0, 8);
    let Ok((sender, receiver)) = attach(alloc, tx, rx) else {
        return Err(AllocError);
    };
    let jobs = Vec::new(alloc);
    let open = true;
    Ok((Lane { sender, jobs, open }, receiver))
}

/// Does these jobs, one after another.
fn do_these(numbers: &[u64], done: &mut Vec<Done>) -> Result<(), AllocError>
    ensures { OnOk result (done.new.items ≡ done.old.items ++ map done_of numbers.now) }
{
    for number in numbers {
        done.push(do_job(*number))?;
    }
    Ok(())
}

impl Lane {
    /// Makes a job one of the worker's. It is sent, for which it waits for room, unless the worker is gone.
    pub fn hand<R: Wait>(&mut self, rt: &R, r: &Region, number: u64) -> Result<(), AllocError>
        requires { IsLane r.now self.old × IsReady self.old }
        ensures lane { IsLane r.now self.new × IsReady self.new }
        ensures ring { self.new.sender.end.ring ≡ self.old.sender.end.ring }
        ensures handed { OnOk result (self.new.jobs.items ≡ self.old.jobs.items ++ number ∷ []) }
    {
        self.jobs.push(number)?;
        if !self.open {
            return Ok(());
        }
        let SendDone::Sent = self.sender.send(rt, r, &number.to_le_bytes(), true) else {
            self.open = false;
            return Ok(());
        };
        Ok(())
    }

    /// Does what the worker has left, once it has come home: all of its jobs are done then.
    pub fn settle(self, r: &Region, home: (Receiver, Vec<Done>)) -> Result<Vec<Done>, AllocError>
        requires lane { IsLane r.now self }
        requires home { (home.0.region ≡ r.now) × (self.sender.end.ring ≡ home.0.end.ring) }
        requires did { home.1.items ≡ map done_of (jobs_in home.0.end.taken) }
        ensures { IfOk result (λ done. done.items ≡ map done_of self.jobs.items) }
    {
        let Lane { sender, jobs, .. } = self;
        let (receiver, mut done) = home;
        mq_handle::home(sender, receiver, r);
        do_these(&jobs[done.len()..], &mut done)?;
        Ok(done)
    }
}
