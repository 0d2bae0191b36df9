//! Who takes part in a query: the workers, which run `work`, and the leader, which runs `lead_all`.

ghost use Rattle.std.specs.Prelude.{◌≡◌};

use crate::GatherAnswer;
use crate::leading::lead_all;
use csv_rows::RowStore;
use parallel_ctx::{Lead, LeaderEnds, Seats, Shared, Worker, WorkerEnds};
use partial_agg::GroupMap;
use plan_descriptor::plan_in;
use std::alloc::Global;
use std::sync::Wait;
use worker_run::{Gate, Job, WorkerEnd, work};

/// The workers of a query: each takes its groups to memory of `alloc` and passes the gate.
pub(crate) struct Team<'a, G: Gate + Sync> {
    /// Where each worker takes the memory for its groups.
    pub(crate) alloc: Global,
    /// The rows of the table, which all read and nobody changes.
    pub(crate) rows: &'a RowStore,
    /// What each worker passes before each of its blocks.
    pub(crate) gate: &'a G,
    /// Whether workers pay.
    pub(crate) pays: bool,
}

impl<'a, G: Gate + Sync> Drop for Team<'a, G> {
    fn drop(self) {
        let Team {
            alloc: _,
            rows: _,
            gate: _,
            pays: _,
        } = self;
    }
}

impl<'a, G: Gate + Sync> Worker for Team<'a, G> {
    ghost use Rattle.par_model.specs.Columns.{HasColumns};
    ghost use Rattle.partial_agg.specs.Rows.{header_width};
    ghost use Rattle.row_blocks.specs.Blocks.{AreBlocks};
    ghost use Rattle.gather_run.specs.Did.{DidWork};

    type End = WorkerEnd;

    ghost asks = { λ team plan blocks. HasColumns plan (header_width team.rows.now) × AreBlocks team.rows.now blocks };

    ghost did = { λ team plan blocks account end. DidWork plan team.rows.now blocks account end };

    fn pays(&self) -> bool {
        self.pays
    }

    fn work<R: Wait + Sync>(
        &self,
        rt: &R,
        shared: &Shared,
        seats: &mut Seats,
        ends: &mut WorkerEnds,
    ) -> WorkerEnd {
        work(
            rt,
            self.alloc,
            &shared.region,
            seats.number,
            &mut seats.toc,
            &shared.claims,
            &mut seats.claim,
            &shared.hash,
            &mut seats.hash,
            self.rows,
            &mut ends.errors,
            &mut ends.tuples,
            self.gate,
        )
    }
}

/// The leader of a query.
pub(crate) struct Leader<'a, G: Gate> {
    /// Where it takes the memory for its groups.
    pub(crate) alloc: Global,
    /// The rows of the table.
    pub(crate) rows: &'a RowStore,
    /// What it passes before each of its blocks.
    pub(crate) gate: &'a G,
    /// The groups of its own blocks and those that it took off the queues; without those that are in the table of
    /// groups, if there is one. Empty before it leads.
    pub(crate) groups: GroupMap,
    /// Why it has no answer, once it has led, if it has none.
    pub(crate) failure: Option<GatherAnswer>,
}

impl<'a, G: Gate> Drop for Leader<'a, G> {
    fn drop(self) {
        let Leader {
            alloc: _,
            rows: _,
            gate: _,
            groups,
            failure: _,
        } = self;
        drop(groups);
    }
}

impl<'a, G: Gate> Lead for Leader<'a, G> {
    ghost use Rattle.std.specs.Prelude.{◌≡◌};
    ghost use Rattle.std.specs.FinMap as fin;
    ghost use Rattle.par_model.specs.Columns.{HasColumns};
    ghost use Rattle.partial_agg.specs.Rows.{header_width};
    ghost use Rattle.row_blocks.specs.Blocks.{AreBlocks};
    ghost use Rattle.gather_run.specs.Leading.{Led};

    ghost asks = { λ leader plan blocks. HasColumns plan (header_width leader.rows.now) × AreBlocks leader.rows.now blocks × (leader.groups ≡ fin.empty) };

    ghost led = { λ leader plan blocks draws used heard new. Led plan leader.rows.now blocks draws used heard new.groups new.failure };

    fn lead<R: Wait + Sync>(
        &mut self,
        rt: &R,
        shared: &Shared,
        seats: &mut Seats,
        queues: &mut [LeaderEnds],
    ) {
        let plan = plan_in(&mut seats.toc, &shared.region);
        let job = Job {
            region: &shared.region,
            rows: self.rows,
            plan: &plan,
            claims: &shared.claims,
            table: &shared.hash,
            gate: self.gate,
            number: 0,
        };
        self.failure = lead_all(
            rt,
            self.alloc,
            &job,
            &mut seats.claim,
            &mut seats.hash,
            queues,
            &mut self.groups,
        );
    }
}

impl<'a, G: Gate> Leader<'a, G> {
    /// Its map, and why it has no answer, if it has none.
    pub(crate) fn into_groups(self) -> (GroupMap, Option<GatherAnswer>)
        ensures { (result.0 ≡ self.entry.groups) × (result.1 ≡ self.entry.failure) }
    {
        let Leader {
            alloc: _,
            rows: _,
            gate: _,
            groups,
            failure,
        } = self;
        (groups, failure)
    }
}
