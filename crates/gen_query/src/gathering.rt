//! From a seed to the groups of its rows, by the way that the bytes of a file take: text, records, groups.

ghost use Rattle.std.specs.Prelude.{◌≡◌, ◌≢◌, ◌≤◌, All, IfOk, drop};
ghost use Rattle.csv_rows.specs.declared.records.RowsAnswer.TheVariants as answer;
ghost use Rattle.par_model.specs.Named.{bound_plan};
ghost use Rattle.par_model.specs.Outcome.{most_rows};
ghost use Rattle.partial_agg.specs.Rows.{IsAccepted, header_width};
ghost use Rattle.gen_query.specs.Generator.{generated, header};
ghost use Rattle.gen_query.specs.Plan.{bound_gen, gen_plan};
ghost use Rattle.gen_query.specs.Used.{IsGatheredOf};

use crate::generator::generated_text;
use csv_rows::{RowStore, RowsAnswer, rows_in_threads};
use gather_run::{GatherAnswer, Gathered, gather};
use par_model::{BoundPlan, Item, ItemKind, NO_FILTER};
use std::alloc::{AllocError, Global};
use std::sync::Wait;
use std::thread::Threads;
use worker_run::Gate;

/// How many workers there are besides the caller's thread.
const WORKERS: u32 = 2;

/// How many pages a shared table of groups would have, for which the plan does not ask.
const AREA_PAGES: u32 = 2_048;

/// The plan over the columns `g` and `v`: the rows and the sum of `v` by `g`.
fn plan() -> BoundPlan
    ensures plan { result ≡ bound_gen }
    ensures named { result ≡ bound_plan header gen_plan }
{
    let unused = Item {
        kind: ItemKind::Rows,
        column: 0,
        places: 0,
    };
    let sum = Item {
        kind: ItemKind::Sum,
        column: 1,
        places: 0,
    };
    BoundPlan {
        groups: [0, 0, 0, 0, 0, 0, 0, 0],
        group_count: 1,
        items: [unused, sum, unused, unused, unused, unused, unused, unused],
        item_count: 2,
        hash: false,
        filters: [NO_FILTER; 8],
        filter_count: 0,
    }
}

/// The records of the rows, read from their text.
pub(crate) fn read_generated<R: Threads + Sync>(
    rt: &R,
    alloc: Global,
    seed: u64,
    rows: u64,
) -> Result<RowStore, AllocError>
    requires { rows ≤ most_rows }
    ensures { IfOk result (λ store. store ≡ generated seed rows) }
{
    let text = generated_text(alloc, seed, rows)?;
    match rows_in_threads(rt, alloc, text.as_slice(), WORKERS as usize + 1) {
        Ok(store) => Ok(store),
        Err(why) => Err(no_memory(why)),
    }
}

/// Why a text with a header and not too many rows could not be read.
fn no_memory(why: RowsAnswer) -> AllocError
    requires header { why ≢ answer.NoHeader }
    requires few { why ≢ answer.TooManyRows }
{
    match why {
        RowsAnswer::Memory => AllocError,
        RowsAnswer::NoHeader => unreachable!(),
        RowsAnswer::TooManyRows => unreachable!(),
    }
}

/// The groups of rows of two columns, of which none is refused.
pub(crate) fn gather_rows<G: Gate + Sync, R: Threads + Wait + Sync>(
    rt: &R,
    alloc: Global,
    rows: &RowStore,
    gate: &G,
) -> Result<Gathered, AllocError>
    requires width { header_width rows.now ≡ 2 }
    requires accepted { All (IsAccepted bound_gen 2) (drop 1 rows.now) }
    ensures { IfOk result (λ gathered. IsGatheredOf rows.now gathered) }
{
    match gather(rt, alloc, rows, &plan(), WORKERS, AREA_PAGES, gate) {
        Ok(gathered) => Ok(gathered),
        Err(GatherAnswer::Memory) => Err(AllocError),
        Err(GatherAnswer::Row { .. }) => unreachable!(),
    }
}
