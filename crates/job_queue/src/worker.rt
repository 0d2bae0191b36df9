//! A worker: it does the jobs that come through its queue.

ghost use Rattle.std.specs.Prelude.{◌≡◌, [], map};
ghost use Rattle.job_queue.specs.Jobs.{done_of};
ghost use Rattle.job_queue.specs.Lanes.{IsFresh, IsHome, jobs_in};

use crate::job::{Done, do_job};
use mq_handle::{ReceiveDone, Receiver};
use region_words::Region;
use rel_pointer::pack;
use std::alloc::Global;
use std::sync::Wait;

/// Does up to `most` of the jobs that come. It has room for a result before it takes the job, so it does what it takes.
fn take_jobs<R: Wait>(rt: &R, r: &Region, q: &mut Receiver, done: &mut Vec<Done>, most: u64)
    requires fresh { IsFresh r.now q.old × (done.old.items ≡ []) }
    ensures here { (q.new.region ≡ r.now) × (q.new.end.ring ≡ q.old.end.ring) }
    ensures did { done.new.items ≡ map done_of (jobs_in q.new.end.taken) }
{
    for _ in 0..most {
        let Ok(()) = done.reserve(1) else {
            return;
        };
        let ReceiveDone::Message = q.receive(rt, r) else {
            return;
        };
        done.push_reserved(do_job(pack(q.message(), 0)));
    }
}

/// A worker, from its start to its end. It goes after `most` jobs, when no more comes, or when it has no memory for a
/// result, and comes home with its end of the queue and what it did.
pub fn work<R: Wait>(
    rt: &R,
    alloc: Global,
    r: &Region,
    mut q: Receiver,
    most: u64,
) -> (Receiver, Vec<Done>)
    requires { IsFresh r.now q }
    ensures { IsHome r.now q result }
{
    let mut done = Vec::new(alloc);
    take_jobs(rt, r, &mut q, &mut done, most);
    q.detach(r);
    (q, done)
}
