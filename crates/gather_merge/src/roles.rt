//! Who takes part in a merge: the workers, which run `work`, and the leader, which runs `lead_all`.

ghost use Rattle.std.specs.Prelude.{◌≡◌};

use crate::MergeAnswer;
use crate::leading::lead_all;
use crate::working::work;
use csv_rows::RowStore;
use parallel_ctx::{Lead, LeaderEnds, Seats, Shared, Worker, WorkerEnds};
use plan_descriptor::plan_in;
use std::alloc::Global;
use std::sync::Wait;
use worker_run::{Gate, Job, WorkerEnd};

/// The workers of a merge: each takes its list to memory of `alloc` and passes the gate.
pub(crate) struct Team<'a, G: Gate + Sync> {
    /// Where the lists come from.
    pub(crate) alloc: Global,
    /// The table.
    pub(crate) rows: &'a RowStore,
    /// The word of each record's first column, by its number.
    pub(crate) words: &'a [u64],
    /// What each participant passes before each of its blocks.
    pub(crate) gate: &'a G,
}

impl<'a, G: Gate + Sync> Drop for Team<'a, G> {
    fn drop(self) {
        let Team {
            alloc: _,
            rows: _,
            words: _,
            gate: _,
        } = self;
    }
}

impl<'a, G: Gate + Sync> Worker for Team<'a, G> {
    ghost use Rattle.par_model.specs.Columns.{HasColumns};
    ghost use Rattle.partial_agg.specs.Rows.{header_width};
    ghost use Rattle.row_blocks.specs.Blocks.{AreBlocks};
    ghost use Rattle.gather_merge.specs.Ended.{DidWork};
    ghost use Rattle.gather_merge.specs.Order.{columns_at};
    ghost use Rattle.gather_merge.specs.RowWords.{AreWords};

    type End = WorkerEnd;

    ghost asks = { λ team plan blocks. HasColumns plan (header_width team.rows.now) × AreBlocks team.rows.now blocks × AreWords (columns_at plan team.rows.now) team.words.now };

    ghost did = { λ team plan blocks account end. DidWork plan team.rows.now blocks account end };

    fn work<R: Wait + Sync>(
        &self,
        rt: &R,
        shared: &Shared,
        seats: &mut Seats,
        ends: &mut WorkerEnds,
    ) -> WorkerEnd {
        let plan = plan_in(&mut seats.toc, &shared.region);
        let job = Job {
            region: &shared.region,
            rows: self.rows,
            plan: &plan,
            claims: &shared.claims,
            table: &shared.hash,
            gate: self.gate,
            number: seats.number,
        };
        work(
            rt,
            self.alloc,
            &job,
            self.words,
            &mut seats.claim,
            &mut ends.errors,
            &mut ends.tuples,
        )
    }
}

/// The leader of a merge, and what came of it.
pub(crate) struct Leader<'a, G: Gate> {
    /// Where the lists come from.
    pub(crate) alloc: Global,
    /// The table.
    pub(crate) rows: &'a RowStore,
    /// The word of each record's first column, by its number.
    pub(crate) words: &'a [u64],
    /// What it passes before each of its blocks.
    pub(crate) gate: &'a G,
    /// The numbers of all rows in order, if there is no failure.
    pub(crate) order: Vec<u64>,
    /// Why there is no order.
    pub(crate) failure: Option<MergeAnswer>,
}

impl<'a, G: Gate> Drop for Leader<'a, G> {
    fn drop(self) {
        let Leader {
            alloc: _,
            rows: _,
            words: _,
            gate: _,
            order,
            failure: _,
        } = self;
        drop(order);
    }
}

impl<'a, G: Gate> Lead for Leader<'a, G> {
    ghost use Rattle.par_model.specs.Columns.{HasColumns};
    ghost use Rattle.partial_agg.specs.Rows.{header_width};
    ghost use Rattle.row_blocks.specs.Blocks.{AreBlocks};
    ghost use Rattle.gather_merge.specs.Leading.{Led};
    ghost use Rattle.gather_merge.specs.Order.{columns_at};
    ghost use Rattle.gather_merge.specs.RowWords.{AreWords};

    ghost asks = { λ leader plan blocks. HasColumns plan (header_width leader.rows.now) × AreBlocks leader.rows.now blocks × AreWords (columns_at plan leader.rows.now) leader.words.now };

    ghost led = { λ leader plan blocks draws used heard new. Led plan leader.rows.now blocks draws heard new.order.items new.failure };

    fn lead<R: Wait + Sync>(
        &mut self,
        rt: &R,
        shared: &Shared,
        seats: &mut Seats,
        queues: &mut [LeaderEnds],
    ) {
        let plan = plan_in(&mut seats.toc, &shared.region);
        let job = Job {
            region: &shared.region,
            rows: self.rows,
            plan: &plan,
            claims: &shared.claims,
            table: &shared.hash,
            gate: self.gate,
            number: 0,
        };
        self.failure = lead_all(
            rt,
            self.alloc,
            &job,
            self.words,
            &mut seats.claim,
            queues,
            &mut self.order,
        );
    }
}

impl<'a, G: Gate> Leader<'a, G> {
    /// The order, and why there is none, if so.
    pub(crate) fn into_order(self) -> (Vec<u64>, Option<MergeAnswer>)
        ensures { (result.0 ≡ self.entry.order) × (result.1 ≡ self.entry.failure) }
    {
        let Leader {
            alloc: _,
            rows: _,
            words: _,
            gate: _,
            order,
            failure,
        } = self;
        (order, failure)
    }
}
