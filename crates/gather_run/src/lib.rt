//! A query with workers, in the manner of nodeGather.c: the leader works as the workers do and gathers their groups.
//!
//! Participants draw blocks of rows, each block drawn once by one of them. A worker sends its groups as tuples; the
//! leader puts the groups of its own blocks and those that it takes off the tuple queues into one map. That this map is
//! the one of a single pass over all rows, no matter which participant drew which block and in which order the tuples
//! came, is the law of `gather_law`; here it is shown that a run is one of those that the law speaks of. A worker that
//! ended early has left rows out, so the answer is then a refused row or a lack of memory, and never groups.
//!
//! With a shared table the leader and the workers put the groups there that they have kept over many blocks. Only a
//! group for which the table has no room goes as a tuple, or into the leader's map. When all are home, what is in the closed table is added to
//! the map, each key once; `agg_law` says that the map is then that of one pass.

#![tactic(auto)]

ghost use Rattle.std.specs.Prelude.{◌≡◌, ◌≤◌, IfErr, IfOk, IfSome, List, OnOk, length, option_map, true};
ghost use Rattle.par_model.specs.Plain.{is_plain};
ghost use Rattle.agg_table.specs.Calls.{Group};
ghost use Rattle.agg_table.specs.Drained.{HoldsAll};
ghost use Rattle.agg_table.specs.declared.part.HashPart.{HashPart};
ghost use Rattle.dshash_parts.specs.Ending.{IsOf, left_of, whole_of};
ghost use Rattle.par_model.specs.Columns.{HasColumns};
ghost use Rattle.partial_agg.specs.Rows.{header_width};
ghost use Rattle.gather_run.specs.Answers.{AreAllGroups, IsCause, IsFirstCause};
ghost use Rattle.gather_run.specs.Drained.{AddsAll, SameHistories};
ghost use Rattle.gather_run.specs.Used.{IsUsed};
ghost use Rattle.plan_spec.specs.declared.plan.TheConstants.{MOST_AREA_PAGES};

use agg_cell::AggObject;
use agg_table::drain;
use csv_rows::RowStore;
use dshash_parts::ClosedTable;
use par_model::BoundPlan;
use parallel_ctx::{Context, Finished};
use partial_agg::{GroupMap, Groups};
use paying::workers_pay;
use region_words::Region;
use roles::{Leader, Team};
use row_blocks::count_blocks;
use std::alloc::{AllocError, Global};
use std::sync::Wait;
use std::thread::Threads;
use verdicts::{answer_of, verdict};
use worker_run::{Gate, WorkerEnd};

mod leading;
mod messages;
mod paying;
mod roles;
mod sharing;
mod verdicts;

/// Why there is no answer.
#[derive(Debug, Clone, Copy, PartialEq, Eq)]
pub enum GatherAnswer {
    /// This row is refused, for this cause; `item` is the place of the aggregate if the cause is an aggregate's.
    Row { row: u64, cause: u8, item: u32 },
    /// There was no memory.
    Memory,
}

/// A plan has few aggregates. It does nothing when it runs.
fn has_few_items(plan: &BoundPlan)
    ensures { length plan.now.items ≤ 8 }
{
    let _items = plan.items();
}

/// What a query comes to.
#[derive(Drop)]
pub struct Gathered {
    /// The groups of all rows, in the order of their keys.
    pub groups: Groups,
    /// What the participants brought home.
    pub finished: Finished<WorkerEnd>,
}

/// Adds the entries of the table of groups to the map, if there is a table.
fn add_table(
    alloc: Global,
    r: &Region,
    table: &mut Option<ClosedTable<AggObject>>,
    groups: &mut GroupMap,
) -> Result<(), AllocError>
    requires part { IfSome table.old (λ c. (part : HashPart) × IsOf r.now part.table c) }
    requires whole { IfSome table.old (λ c. left_of c ≡ 128) }
    requires held { IfSome (option_map (λ c. whole_of c) table.old) (λ history. (puts : List (List Group)) × HoldsAll history puts) }
    ensures added { OnOk result (AddsAll (option_map (λ c. whole_of c) table.old) groups.old groups.new) }
    ensures history { SameHistories (option_map (λ c. whole_of c) table.old) (option_map (λ c. whole_of c) table.new) }
{
    match table {
        None => Ok(()),
        Some(table) => drain(alloc, r, table, groups),
    }
}

/// Runs a query in the caller's thread, as participant 0, with this many workers besides it. Each participant passes
/// the gate before each of its blocks. If the plan asks for a shared table of groups, it is made in an area of this
/// many pages, as long as these are 16 or more; else the workers send their groups to the leader. Of several refused
/// rows any may be named, unless there are no workers. A refused row that the leader met or read goes before a worker's
/// lack of memory; on either, and if it has no memory itself, the leader leaves its queues at once, which stops the
/// workers. Fewer workers than asked for may start, also none; without a table none is started if groups have few rows each,
/// since the leader looks up each group that a worker sends.
///
/// The time of the rows is shared out by blocks of 256; that of taking the groups off the queues, and of draining the
/// table, is the leader's. Memory is 82 KB for each worker, the groups, the table's area, and the groups of each
/// participant's own rows.
pub fn gather<G: Gate + Sync, R: Threads + Wait + Sync>(
    rt: &R,
    alloc: Global,
    rows: &RowStore,
    plan: &BoundPlan,
    workers: u32,
    area_pages: u32,
    gate: &G,
) -> Result<Gathered, GatherAnswer>
    requires columns { HasColumns plan.now (header_width rows.now) }
    requires plain { is_plain plan.now ≡ true }
    requires workers { workers ≤ 64 }
    requires pages { area_pages ≤ MOST_AREA_PAGES }
    ensures groups { IfOk result (λ g. AreAllGroups plan.now rows.now g.groups) }
    ensures row { IfErr result (λ why. IsCause plan.now rows.now why) }
    ensures first { workers ≡ 0 → IfErr result (λ why. IsFirstCause plan.now rows.now why) }
    ensures used { IfOk result (λ g. IsUsed plan.now rows.now workers area_pages g.finished) }
{
    let Ok(context) = Context::build(rt, alloc, plan, workers, area_pages, count_blocks(rows))
    else {
        return Err(GatherAnswer::Memory);
    };
    let pays = workers_pay(alloc, rows, plan, workers);
    let team = Team {
        alloc,
        rows,
        gate,
        pays,
    };
    let mut leader = Leader {
        alloc,
        rows,
        gate,
        groups: GroupMap::new(alloc),
        failure: None,
    };
    let Ok(mut finished) = context.run(rt, alloc, &team, &mut leader) else {
        return Err(GatherAnswer::Memory);
    };
    let (mut groups, failure) = leader.into_groups();
    if let Some(why) = failure {
        return Err(why);
    }
    if let Some(why) = verdict(&finished.workers) {
        return Err(answer_of(why));
    }
    has_few_items(plan);
    if add_table(alloc, &finished.region, &mut finished.table, &mut groups).is_err() {
        return Err(GatherAnswer::Memory);
    }
    Ok(Gathered {
        groups: groups.into_groups(),
        finished,
    })
}
