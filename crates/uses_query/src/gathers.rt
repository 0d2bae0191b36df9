//! Runs over a few rows, which show what no clause says: that the calls succeed, with any number of workers.

ghost use Rattle.std.specs.Prelude.{◌≡◌, ◌≤◌, IfOk, length, true};
ghost use Rattle.par_model.specs.Columns.{HasColumns};
ghost use Rattle.par_model.specs.Plain.{is_plain};
ghost use Rattle.partial_agg.specs.Rows.{header_width};

mod stopped;

use csv_rows::{RowStore, rows};
use gather_run::{GatherAnswer, Gathered, gather};
use par_model::{BoundPlan, Item, ItemKind, NO_FILTER};
use std::alloc::{AllocError, Global};
use std::sync::Wait;
use std::test::Fail;
use std::thread::Threads;
use worker_run::OpenGate;

/// Rows under the headers `g` and `v`: this many, of this many groups, whose names are letters in turn.
fn table(alloc: Global, count: u64, names: u64) -> Result<Vec<u8>, AllocError>
    requires { (1 ≤ names) × (names ≤ 26) }
{
    let mut text = Vec::from_slice(alloc, b"g,v\n")?;
    for row in 0..count {
        text.push(b'a' + (row % names) as u8)?;
        text.extend_from_slice(b",2\n")?;
    }
    Ok(text)
}

/// The query for the rows and the sum of `v` by `g`.
fn query(alloc: Global, text: &[u8]) -> Result<(RowStore, BoundPlan), Fail>
    ensures columns { IfOk result (λ query. HasColumns query.1 (header_width query.0)) }
    ensures plain { IfOk result (λ query. is_plain query.1 ≡ true) }
{
    let store = match rows(alloc, text) {
        Ok(store) => store,
        Err(_) => return Err(Fail::new("no rows")),
    };
    if store.width(0) != 2 {
        return Err(Fail::new("not two columns"));
    }
    let unused = Item {
        kind: ItemKind::Rows,
        column: 0,
        places: 0,
    };
    let sum = Item {
        kind: ItemKind::Sum,
        column: 1,
        places: 0,
    };
    let plan = BoundPlan {
        groups: [0, 0, 0, 0, 0, 0, 0, 0],
        group_count: 1,
        items: [unused, sum, unused, unused, unused, unused, unused, unused],
        item_count: 2,
        hash: false,
        filters: [NO_FILTER; 8],
        filter_count: 0,
    };
    Ok((store, plan))
}

/// What a query comes to that has an answer.
fn gathered<R: Threads + Wait + Sync>(
    rt: &R,
    alloc: Global,
    store: &RowStore,
    plan: &BoundPlan,
    workers: u32,
) -> Result<Gathered, Fail>
    requires columns { HasColumns plan.now (header_width store.now) }
    requires plain { is_plain plan.now ≡ true }
    requires workers { workers ≤ 64 }
{
    match gather(rt, alloc, store, plan, workers, 0, &OpenGate) {
        Ok(gathered) => Ok(gathered),
        Err(GatherAnswer::Memory) => Err(Fail::new("memory")),
        Err(GatherAnswer::Row { .. }) => Err(Fail::new("a row is refused")),
    }
}

/// Whether there is one group, `a`, of 768 rows of the value 2, from this many workers.
fn is_one_group(got: &Gathered, workers: u32) -> bool {
    if got.groups.len() != 1 {
        return false;
    }
    let group = got.groups.get(0);
    group.key.bytes() == b"\x01\0\0\0a".as_slice()
        && group.state.rows == 768
        && group.state.slots[1].sum == 1536
        && got.finished.workers.len() == workers as usize
        && got.finished.launched == workers
}

/// Whether these rows come to that group.
fn has_one_group<R: Threads + Wait + Sync>(
    rt: &R,
    alloc: Global,
    text: &[u8],
    workers: u32,
) -> Result<bool, Fail>
    requires workers { workers ≤ 64 }
{
    let (store, plan) = query(alloc, text)?;
    let got = gathered(rt, alloc, &store, &plan, workers)?;
    Ok(is_one_group(&got, workers))
}

#[test]
fn one_group_with_any_workers(rt: HostRuntime) -> Result<(), Fail> {
    let text = table(rt.alloc(), 768, 1)?;
    for workers in [0, 1, 2, 8, 64] {
        if workers <= 64 {
            assert!(rt;
                has_one_group(&rt, rt.alloc(), &text, workers)?,
                "{workers} workers"
            );
        }
    }
    Ok(())
}
