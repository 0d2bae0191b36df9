//! Workers, each in its own thread: how each is started, and brought home.
//!
//! A job owns its worker's tokens (`Hand`), lends them to `work`, and gives them back (`Back`). What comes back is the
//! job's promise (`Brings`), so that the thread that joins it knows it. A flag for each job says that its start was
//! refused; no contract sees a plain atomic, and none needs to: the promise holds whether the worker was called or not.

ghost use Rattle.std.specs.Prelude.{◌≡◌, ◌≤◌, [], All, length, vec_capacity, vec_len};
ghost use Rattle.std.specs.List.{AllZip};
ghost use Rattle.parallel_ctx.specs.Returns.{Brought, CanWork, Carries, Keeps, Returns};
ghost use Rattle.parallel_ctx.specs.Tokens.{AreLeft, SameEnds};

use crate::roles::Worker;
use crate::tokens::{Hand, Shared, WorkerEnds};
use region_words::Region;
use std::snapshot::Snapshot;
use std::sync::Wait;
use std::sync::atomic::{AtomicBool, Ordering};
use std::thread::{Promise, PromisedHandle, Scope, Threads};

/// What a thread gives back.
#[derive(Drop)]
pub(crate) struct Back<E> {
    /// What the worker answered, or `None` if it was not called.
    pub(crate) end: Option<E>,
    /// The thread's tokens, with both ends of its queues detached.
    pub(crate) hand: Hand,
}

/// What a thread promises: to bring back the tokens that it was given.
pub(crate) struct Brings<W: Worker> {
    /// The worker that is called.
    worker: Snapshot<W>,
    /// What all participants see.
    shared: Snapshot<Shared>,
    /// The tokens as they were before the thread began.
    hand: Snapshot<Hand>,
}

impl<W: Worker> Drop for Brings<W> {
    fn drop(self) {
        let Brings {
            worker: _,
            shared: _,
            hand: _,
        } = self;
    }
}

impl<W: Worker> Promise<Back<W::End>> for Brings<W> {
    ghost kept_by = { Keeps W.did };
}

/// A worker that runs in its thread, or what came back if none could be made.
pub(crate) enum Placed<W: Worker> {
    Running(PromisedHandle<Back<W::End>, Brings<W>>),
    Here(Back<W::End>),
}

impl<W: Worker> Drop for Placed<W> {
    fn drop(self) {
        match self {
            Placed::Running(child) => drop(child),
            Placed::Here(back) => drop(back),
        }
    }
}

/// Detaches both ends.
fn leave(r: &Region, ends: &mut WorkerEnds)
    requires errors { ends.old.errors.region ≡ r.now }
    requires tuples { ends.old.tuples.region ≡ r.now }
    ensures ends { SameEnds ends.old ends.new }
    ensures left { AreLeft ends.new }
    ensures errors { ends.new.errors.end.put ≡ ends.old.errors.end.put }
    ensures tuples { ends.new.tuples.end.put ≡ ends.old.tuples.end.put }
    ensures errors_flag { ends.new.errors.end.flag_value ≡ ends.old.errors.end.flag_value }
    ensures tuples_flag { ends.new.tuples.end.flag_value ≡ ends.old.tuples.end.flag_value }
{
    ends.errors.detach(r);
    ends.tuples.detach(r);
}

/// Works, unless the start was refused. Detaches the ends in either case.
fn work_or_return<W: Worker, R: Wait + Sync>(
    rt: &R,
    worker: &W,
    shared: &Shared,
    refused: &AtomicBool,
    mut hand: Hand,
) -> Back<W::End>
    requires { CanWork (W.asks worker.now) shared.now hand }
    ensures { Returns (W.did worker.now) shared.now hand result }
{
    if refused.load(Ordering::SeqCst) {
        leave(&shared.region, &mut hand.ends);
        return Back { end: None, hand };
    }
    let end = worker.work(rt, shared, &mut hand.seats, &mut hand.ends);
    leave(&shared.region, &mut hand.ends);
    Back {
        end: Some(end),
        hand,
    }
}

/// Starts a worker in its own thread, if that pays. A refused start gives the job back: its flag is set, and the job is
/// called here, which then only gives the tokens back. Nothing else is done if a start does not pay.
fn launch<'s, E, W: Worker, R: Threads + Wait + Sync>(
    scope: &Scope<'s, E>,
    rt: &'s R,
    worker: &'s W,
    shared: &'s Shared,
    refused: &'s AtomicBool,
    hand: Hand,
) -> Placed<W>
where
    W::End: 's,
    requires { CanWork (W.asks worker.now) shared.now hand }
    ensures { Carries W.did worker.now shared.now hand result }
{
    let promise = Brings {
        worker: Snapshot::of(worker),
        shared: Snapshot::of(shared),
        hand: Snapshot::of(&hand),
    };
    let job = move || -> Back<W::End>
        requires { CanWork (W.asks worker.now) shared.now hand }
        ensures { Returns (W.did worker.entry.now) shared.entry.now hand result }
    { work_or_return(rt, worker, shared, refused, hand) };
    if !worker.pays() {
        refused.store(true, Ordering::SeqCst);
        return Placed::Here(job());
    }
    match scope.spawn_with(promise, job) {
        Ok(child) => Placed::Running(child),
        Err(back) => {
            refused.store(true, Ordering::SeqCst);
            Placed::Here((back.value)())
        }
    }
}

impl<W: Worker> Placed<W> {
    /// Joins the worker, if it runs.
    fn bring<R: Threads>(self, rt: &R) -> Back<W::End>
        ensures { Brought W.did self result }
    {
        match self {
            Placed::Running(child) => child.join(rt),
            Placed::Here(back) => back,
        }
    }
}

/// Starts a worker for each hand, in order. A worker that is refused its thread has come back at once.
pub(crate) fn launch_all<'s, E, W: Worker, R: Threads + Wait + Sync>(
    scope: &Scope<'s, E>,
    rt: &'s R,
    worker: &'s W,
    shared: &'s Shared,
    flags: &'s [AtomicBool],
    hands: Vec<Hand>,
    mut placed: Vec<Placed<W>>,
) -> Vec<Placed<W>>
where
    W::End: 's,
    requires fresh { All (CanWork (W.asks worker.now) shared.now) hands.items }
    requires flags { length flags.now ≡ vec_len hands }
    requires empty { placed.items ≡ [] }
    requires room { vec_len hands ≤ vec_capacity placed }
    ensures { AllZip (Carries W.did worker.now shared.now) hands.items result.items }
{
    let mut at = 0;
    for hand in hands {
        placed.push_reserved(launch(scope, rt, worker, shared, &flags[at], hand));
        at += 1;
    }
    placed
}

/// Joins each worker, in order.
pub(crate) fn bring_all<W: Worker, R: Threads>(
    rt: &R,
    placed: Vec<Placed<W>>,
    mut backs: Vec<Back<W::End>>,
) -> Vec<Back<W::End>>
    requires empty { backs.items ≡ [] }
    requires room { vec_len placed ≤ vec_capacity backs }
    ensures { AllZip (Brought W.did) placed.items result.items }
{
    for one in placed {
        backs.push_reserved(one.bring(rt));
    }
    backs
}
