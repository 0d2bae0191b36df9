//! A lead that leaves its queues while the worker is at its first block: the worker ends stopped. If it doesn't pay to start
//! it, it does not start.

ghost use Rattle.std.specs.Prelude.{◌≡◌, All, true};
ghost use Rattle.std.specs.List.{AllZip};
ghost use Rattle.par_model.specs.Columns.{HasColumns};
ghost use Rattle.par_model.specs.Plain.{is_plain};
ghost use Rattle.parallel_ctx.specs.Tokens.{AreHere, SameQueues};
ghost use Rattle.partial_agg.specs.Rows.{header_width};

use super::{query, table};
use crossbeam_utils::Backoff;
use csv_rows::RowStore;
use par_model::BoundPlan;
use parallel_ctx::{Context, Lead, LeaderEnds, Seats, Shared, Worker, WorkerEnds};
use region_words::Region;
use row_blocks::count_blocks;
use std::alloc::Global;
use std::sync::Wait;
use std::sync::atomic::{AtomicBool, Ordering};
use std::test::Fail;
use std::thread::Threads;
use worker_run::{Gate, WorkerEnd, work};

/// Holds a worker until it is opened, for at most twenty million turns: the lead may be kept from its processor for
/// seconds.
#[derive(Drop)]
struct Barred {
    open: AtomicBool,
}

impl Gate for Barred {
    fn pass(&self, _participant: u32, _block: u64) {
        let backoff = Backoff::new();
        for _turn in 0..20_000_000 {
            if self.open.load(Ordering::SeqCst) {
                return;
            }
            backoff.snooze();
        }
    }
}

/// A worker over rows, with the memory of its groups and the gate that holds it, and whether it pays. What it did nobody asks.
struct Held<'a> {
    alloc: Global,
    rows: &'a RowStore,
    gate: &'a Barred,
    pays: bool,
}

impl<'a> Drop for Held<'a> {
    fn drop(self) {
        let Held {
            alloc: _,
            rows: _,
            gate: _,
            pays: _,
        } = self;
    }
}

impl<'a> Worker for Held<'a> {
    ghost use Rattle.par_model.specs.Columns.{HasColumns};
    ghost use Rattle.partial_agg.specs.Rows.{header_width};
    ghost use Rattle.row_blocks.specs.Blocks.{AreBlocks};

    type End = WorkerEnd;

    ghost asks = { λ held plan blocks. HasColumns plan (header_width held.rows.now) × AreBlocks held.rows.now blocks };

    ghost did = { λ held plan blocks account end. Unit {0} };

    fn pays(&self) -> bool {
        self.pays
    }

    fn work<R: Wait + Sync>(
        &self,
        rt: &R,
        shared: &Shared,
        seats: &mut Seats,
        ends: &mut WorkerEnds,
    ) -> WorkerEnd {
        work(
            rt,
            self.alloc,
            &shared.region,
            seats.number,
            &mut seats.toc,
            &shared.claims,
            &mut seats.claim,
            &shared.hash,
            &mut seats.hash,
            self.rows,
            &mut ends.errors,
            &mut ends.tuples,
            self.gate,
        )
    }
}

/// Leaves the queues of the first worker, and then opens the gate.
struct Leaver<'a> {
    gate: &'a Barred,
}

impl<'a> Drop for Leaver<'a> {
    fn drop(self) {
        let Leaver { gate: _ } = self;
    }
}

/// Detaches both ends.
fn leave(r: &Region, queue: &mut LeaderEnds)
    requires { AreHere r.now queue.old }
    ensures { SameQueues queue.old queue.new }
{
    queue.errors.detach(r);
    queue.tuples.detach(r);
}

/// Detaches the ends of the first worker's queues, if there is one.
fn leave_first(r: &Region, queues: &mut [LeaderEnds])
    requires { All (AreHere r.now) queues.old }
    ensures { AllZip SameQueues queues.old queues.new }
{
    if queues.is_empty() {
        return;
    }
    leave(r, &mut queues[0]);
}

impl<'a> Lead for Leaver<'a> {
    ghost asks = { λ leaver plan blocks. Unit {0} };

    ghost led = { λ leaver plan blocks draws used heard new. Unit {0} };

    fn lead<R: Wait + Sync>(
        &mut self,
        _rt: &R,
        shared: &Shared,
        _seats: &mut Seats,
        queues: &mut [LeaderEnds],
    ) {
        leave_first(&shared.region, queues);
        self.gate.open.store(true, Ordering::SeqCst);
    }
}

/// Whether one worker over these rows starts if it pays, and then ends stopped, and otherwise does not start.
fn starts_if_it_pays<R: Threads + Wait + Sync>(
    rt: &R,
    alloc: Global,
    rows: &RowStore,
    plan: &BoundPlan,
    pays: bool,
) -> Result<bool, Fail>
    requires columns { HasColumns plan.now (header_width rows.now) }
    requires plain { is_plain plan.now ≡ true }
{
    let gate = Barred {
        open: AtomicBool::new(false),
    };
    let held = Held {
        alloc,
        rows,
        gate: &gate,
        pays,
    };
    let mut leaver = Leaver { gate: &gate };
    let context = Context::build(rt, alloc, plan, 1, 0, count_blocks(rows))?;
    let finished = context.run(rt, alloc, &held, &mut leaver)?;
    let end = &finished.workers[0].end;
    if pays {
        Ok(finished.launched == 1 && *end == Some(WorkerEnd::Stopped))
    } else {
        Ok(finished.launched == 0 && end.is_none())
    }
}

#[test]
fn a_worker_is_stopped_or_never_starts(rt: HostRuntime) -> Result<(), Fail> {
    let text = table(rt.alloc(), 3, 2)?;
    let (rows, plan) = query(rt.alloc(), &text)?;
    for pays in [true, false] {
        assert!(rt;
            starts_if_it_pays(&rt, rt.alloc(), &rows, &plan, pays)?,
            "{pays}"
        );
    }
    Ok(())
}
