//! Runs over a few rows, which show what no clause says: that the calls succeed, and that a refused row stops
//! all.

ghost use Rattle.std.specs.Prelude.{◌≤◌, IfOk};
ghost use Rattle.par_model.specs.Columns.{HasColumns};
ghost use Rattle.partial_agg.specs.Rows.{header_width};
ghost use Rattle.gather_merge.specs.Answers.{OrdersRows};
ghost use Rattle.gather_merge.specs.Order.{IsOrder};

mod stopping;

use csv_rows::{RowStore, rows};
use gather_merge::{MergeAnswer, Merged, merge};
use par_model::{BoundPlan, Item, ItemKind, NO_FILTER};
use std::alloc::{AllocError, Global};
use std::sync::Wait;
use std::test::Fail;
use std::thread::Threads;
use worker_run::{Gate, OpenGate, WorkerEnd};

/// The rows of a text whose header has two columns, and the plan that orders them by these: by the second and then the
/// first, or only by the first.
fn ordered_by(
    alloc: Global,
    text: &[u8],
    width: u32,
    both: bool,
) -> Result<(RowStore, BoundPlan), Fail>
    ensures plan { IfOk result (λ query. OrdersRows query.1) }
    ensures columns { IfOk result (λ query. HasColumns query.1 (header_width query.0)) }
{
    let store = match rows(alloc, text) {
        Ok(store) => store,
        Err(_) => return Err(Fail::new("no rows")),
    };
    if width == 0 || store.width(0) != width || both && width < 2 {
        return Err(Fail::new("another width"));
    }
    let unused = Item {
        kind: ItemKind::Rows,
        column: 0,
        places: 0,
    };
    let plan = BoundPlan {
        groups: [if both { 1 } else { 0 }, 0, 0, 0, 0, 0, 0, 0],
        group_count: if both { 2 } else { 1 },
        items: [
            unused, unused, unused, unused, unused, unused, unused, unused,
        ],
        item_count: 1,
        hash: false,
        filters: [NO_FILTER; 8],
        filter_count: 0,
    };
    Ok((store, plan))
}

/// A merge that has an order, which is that of the rows.
fn merged<G: Gate + Sync, R: Threads + Wait + Sync>(
    rt: &R,
    alloc: Global,
    store: &RowStore,
    plan: &BoundPlan,
    workers: u32,
    gate: &G,
) -> Result<Merged, Fail>
    requires plan { OrdersRows plan.now }
    requires columns { HasColumns plan.now (header_width store.now) }
    requires workers { workers ≤ 64 }
    ensures order { IfOk result (λ merged. IsOrder plan.now store.now merged.order) }
{
    match merge(rt, alloc, store, plan, workers, gate) {
        Ok(merged) => Ok(merged),
        Err(MergeAnswer::Memory) => Err(Fail::new("memory")),
        Err(MergeAnswer::Row { .. }) => Err(Fail::new("a row is refused")),
    }
}

/// Whether the order is this list.
fn is_order(merged: &Merged, list: &[u64]) -> bool {
    if merged.order.len() != list.len() {
        return false;
    }
    for at in 0..list.len() {
        if at >= merged.order.len() || merged.order.get(at) != list[at] {
            return false;
        }
    }
    true
}

/// Whether this many workers were launched, and each came to its end.
fn all_finished(merged: &Merged, workers: u32) -> bool {
    for worker in &merged.finished.workers {
        if worker.end != Some(WorkerEnd::Finished) {
            return false;
        }
    }
    merged.finished.launched == workers
}

/// Whether the rows of a text with this many columns come in this order, by its first column or by both of two, and all
/// workers came to their ends.
fn are_ordered<R: Threads + Wait + Sync>(
    rt: &R,
    alloc: Global,
    text: &[u8],
    width: u32,
    both: bool,
    workers: u32,
    list: &[u64],
) -> Result<bool, Fail>
    requires workers { workers ≤ 64 }
{
    let (store, plan) = ordered_by(alloc, text, width, both)?;
    let got = merged(rt, alloc, &store, &plan, workers, &OpenGate)?;
    Ok(is_order(&got, list) && all_finished(&got, workers))
}

#[test]
fn by_one_column_and_by_two(rt: HostRuntime) -> Result<(), Fail> {
    let text = b"g,v\nb,1\na,2\nb,0\na,1\n";
    for workers in [0, 1, 2, 64] {
        if workers <= 64 {
            for (both, list) in [(false, [2, 4, 1, 3]), (true, [3, 4, 1, 2])] {
                assert!(rt; are_ordered(&rt, rt.alloc(), text, 2, both, workers, &list)?);
            }
        }
    }
    Ok(())
}

/// Why the rows of a text have no order by their one column, or by the first of two.
fn refused<G: Gate + Sync, R: Threads + Wait + Sync>(
    rt: &R,
    alloc: Global,
    text: &[u8],
    width: u32,
    workers: u32,
    gate: &G,
) -> Result<MergeAnswer, Fail>
    requires workers { workers ≤ 64 }
{
    let (store, plan) = ordered_by(alloc, text, width, false)?;
    match merge(rt, alloc, &store, &plan, workers, gate) {
        Ok(_) => Err(Fail::new("no row is refused")),
        Err(why) => Ok(why),
    }
}

/// With no workers the first refused row is named, and else one that is refused.
#[test]
fn a_refused_row(rt: HostRuntime) -> Result<(), Fail> {
    let text = b"g,v\na,1\nb\nc,d,e\n";
    for workers in [0, 1, 4] {
        if workers <= 64 {
            let why = refused(&rt, rt.alloc(), text, 2, workers, &OpenGate)?;
            assert!(rt; why == MergeAnswer::Row { row: 2, cause: 1 });
        }
    }
    Ok(())
}
