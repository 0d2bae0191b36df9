//! The job queue: a leader hands jobs out to two workers, and brings home what was done. Each has a thread.

ghost use Rattle.std.specs.Prelude.{◌≡◌, [], IfOk, OnOk};
ghost use Rattle.std.specs.Thread.{IsSync};
ghost use Rattle.job_queue.specs.Jobs.{AreDone};
ghost use Rattle.job_queue.specs.Lanes.{AreDealt, AreLanes, IsFresh, IsHome, IsNew};

use crate::job::Done;
use crate::lane::{Lane, RING_WORDS, new_lane};
use crate::worker::work;
use mq_handle::Receiver;
use region_words::Region;
use std::alloc::{AllocError, Global};
use std::sync::Wait;
use std::thread::{Threads, join};

/// A lane to each of two workers.
#[derive(Drop)]
pub struct Lanes {
    pub one: Lane,
    pub other: Lane,
}

/// A region, and after its first word two queues: what the leader has of them, and the workers' ends.
#[tactic(auto, using(word_map::proofs::Maps::answers, std::proofs::lemmas::Bool::Decides::nat_tests))]
fn open(alloc: Global) -> Result<(Region, Lanes, (Receiver, Receiver)), AllocError>
    ensures one { IfOk result (λ made. IsNew made.0 made.1.one made.2.0) }
    ensures other { IfOk result (λ made. IsNew made.0 made.1.other made.2.1) }
{
    let words = RING_WORDS + 3;
    let (r, mut part) = Region::new(alloc, 2 * words as usize + 1)?;
    let first = part.split_chunk(&r, 1, words);
    let second = part.split_chunk(&r, 1 + words, words);
    let (one, q) = new_lane(alloc, &r, first)?;
    let (other, p) = new_lane(alloc, &r, second)?;
    Ok((r, Lanes { one, other }, (q, p)))
}

impl Lanes {
    /// Hands out the jobs below `count`, each to the worker whose turn it is, or to the other if that one is gone.
    fn hand_out<R: Wait>(&mut self, rt: &R, r: &Region, count: u64) -> Result<(), AllocError>
        requires one { (q : _) × IsNew r.now self.old.one q }
        requires other { (q : _) × IsNew r.now self.old.other q }
        ensures lanes { AreLanes r.now self.old self.new }
        ensures dealt { OnOk result (AreDealt count self.new) }
    {
        for number in 0..count {
            if (number % 2 == 0 && self.one.open) || !self.other.open {
                self.one.hand(rt, r, number)?;
            } else {
                self.other.hand(rt, r, number)?;
            }
        }
        Ok(())
    }
}

/// The leader. It says to both workers in any case that no more comes, since they would wait otherwise.
fn lead<R: Wait>(rt: &R, r: &Region, mut lanes: Lanes, count: u64) -> Result<Lanes, AllocError>
    requires { ((q : _) × IsNew r.now lanes.one q) × ((q : _) × IsNew r.now lanes.other q) }
    ensures { IfOk result (λ led. AreLanes r.now lanes led × AreDealt count led) }
{
    let handed = lanes.hand_out(rt, r, count);
    lanes.one.sender.detach(r);
    lanes.other.sender.detach(r);
    handed?;
    Ok(lanes)
}

/// The leader and both workers, side by side; then all that was done, in one list.
fn run<R: Threads + Wait + Sync>(
    rt: &R,
    alloc: Global,
    r: &Region,
    lanes: Lanes,
    ends: (Receiver, Receiver),
    count: u64,
    most: u64,
) -> Result<Vec<Done>, AllocError>
    requires one { IsNew r.now lanes.one ends.0 }
    requires other { IsNew r.now lanes.other ends.1 }
    ensures { IfOk result (λ done. AreDone count done.items) }
{
    let (q, p) = ends;
    let (led, (one, other)) = join(
        rt,
        || lead(rt, r, lanes, count),
        || -> ((Receiver, Vec<Done>), (Receiver, Vec<Done>))
            requires { IsSync R.row × IsFresh r.now q × IsFresh r.now p }
            ensures { IsHome r.entry.now q result.0 × IsHome r.entry.now p result.1 }
        {
            join(
                rt,
                || work(rt, alloc, r, q, most),
                || work(rt, alloc, r, p, most),
            )
        },
    );
    let lanes = led?;
    let mut done = lanes.one.settle(r, one)?;
    done.append(&mut lanes.other.settle(r, other)?)?;
    Ok(done)
}

/// Has the jobs below `count` done by two workers, each of which goes after `most` of them. The number of a job goes
/// through a worker's queue, and what a worker has left when it goes the leader does, so each job is in the list that
/// comes home, once. It starts up to two threads, and takes room for 32 bytes a job; an error means that there was no
/// memory.
pub fn do_jobs<R: Threads + Wait + Sync>(
    rt: &R,
    alloc: Global,
    count: u64,
    most: u64,
) -> Result<Vec<Done>, AllocError>
    ensures { IfOk result (λ done. AreDone count done.items) }
{
    let (r, lanes, ends) = open(alloc)?;
    run(rt, alloc, &r, lanes, ends, count, most)
}
