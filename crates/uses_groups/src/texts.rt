//! Worked rows: words and an input, and the text of their table.

ghost use Rattle.std.specs.Prelude.{◌≡◌, ◌<◌, ◌≤◌, ◌+◌, ◌∷◌, ◌^◌, IfOk, IfSome, drop, length};
ghost use Rattle.std.specs.Bool.{OnTrue};
ghost use Rattle.csv_rows.specs.Records.{record_at};
ghost use Rattle.par_model.specs.Columns.{HasColumns};
ghost use Rattle.par_model.specs.Named.{bound_plan};
ghost use Rattle.par_model.specs.Outcome.{IsAnswer};
ghost use Rattle.partial_agg.specs.Groups.{AreGroups};
ghost use Rattle.result_text.specs.Pieces.{joined};

use crate::partials::all_groups;
use csv_rows::{RowStore, rows};
use par_model::BoundPlan;
use partial_agg::{BLOCK_ROWS, GroupMap};
use plan_spec::Plan;
use result_text::{text_in_threads, text_of};
use std::alloc::{AllocError, Global};
use std::test::Fail;
use std::thread::Threads;

/// The answer to a plan over the rows of a store, whose groups are in a map: the caller of CALLING.md.
fn answer(
    alloc: Global,
    plan: &Plan,
    bound: &BoundPlan,
    store: &RowStore,
    map: GroupMap,
) -> Result<Vec<u8>, AllocError>
    requires bound { bound.now ≡ bound_plan (record_at store.now 0) plan.now.plan }
    requires groups { AreGroups bound.now (drop 1 store.now) map }
    requires few { length store.now ≤ 2 ^ 50 }
    ensures { IfOk result (λ text. IsAnswer plan.now.plan (record_at store.now 0 ∷ drop 1 store.now) text.items) }
{
    let groups = map.into_groups();
    text_of(alloc, plan, bound, &groups)
}

/// The text of the answer in pieces, made by this many threads.
fn answer_in_threads<R: Threads + Sync>(
    rt: &R,
    alloc: Global,
    plan: &Plan,
    bound: &BoundPlan,
    store: &RowStore,
    map: GroupMap,
    threads: usize,
) -> Result<Vec<Vec<u8>>, AllocError>
    requires bound { bound.now ≡ bound_plan (record_at store.now 0) plan.now.plan }
    requires groups { AreGroups bound.now (drop 1 store.now) map }
    requires few { length store.now ≤ 2 ^ 50 }
    ensures { IfOk result (λ pieces. IsAnswer plan.now.plan (record_at store.now 0 ∷ drop 1 store.now) (joined pieces.items)) }
{
    let groups = map.into_groups();
    text_in_threads(rt, alloc, plan, bound, &groups, threads)
}

/// Whether a plan reads only columns below this width.
fn reads_below(bound: &BoundPlan, width: u32) -> bool
    ensures { OnTrue result (HasColumns bound.now width) }
{
    bound.group_columns().iter().all(|column| *column < width)
        && bound.items().iter().all(|item| item.column < width)
        && bound.filters().iter().all(|filter| filter.column < width)
}

/// The groups of a store of at most one block.
fn groups_of(alloc: Global, bound: &BoundPlan, store: &RowStore) -> Option<GroupMap>
    requires { length store.now ≤ 257 }
    ensures { IfSome result (λ map. AreGroups bound.now (drop 1 store.now) map) }
{
    let count = store.count();
    let mut map = GroupMap::new(alloc);
    if count == 0 {
        return Some(map);
    }
    if !reads_below(bound, store.width(0)) {
        return None;
    }
    match map.add_block(store, bound, 0) {
        Ok(()) => Some(map),
        Err(_) => None,
    }
}

/// The plan of some words.
fn plan_of(alloc: Global, words: &str) -> Option<Plan> {
    let list = owned(alloc, words).ok()?;
    Plan::of_words(alloc, list.as_slice()).ok()
}

/// The text of the table of a plan over at most 256 rows.
fn text_over(alloc: Global, plan: &Plan, store: &RowStore) -> Option<Vec<u8>> {
    let bound = plan.bind(store).ok()?;
    if store.count() > BLOCK_ROWS {
        return None;
    }
    let map = groups_of(alloc, &bound, store)?;
    answer(alloc, plan, &bound, store, map).ok()
}

/// The text of the table of some words over at most 256 rows.
fn table(alloc: Global, words: &str, input: &str) -> Option<Vec<u8>> {
    let store = rows(alloc, input.as_bytes()).ok()?;
    let plan = plan_of(alloc, words)?;
    text_over(alloc, &plan, &store)
}

fn owned(alloc: Global, words: &str) -> Result<Vec<String>, AllocError> {
    let mut list = Vec::new(alloc);
    for word in words.split(' ') {
        let word = String::from_str(alloc, word)?;
        if list.push(word).is_err() {
            return Err(AllocError);
        }
    }
    Ok(list)
}

/// Words, the input, and the text of the table.
const TABLES: [(&str, &str, &str); 16] = [
    (
        "--group g --agg sum:v,avg:v",
        "g,v\na,1\nb,2\na,3\n",
        "g,sum(v),avg(v)\na,4,2.0000\nb,2,2.0000\n",
    ),
    ("--agg count,sum:v", "g,v\n", "count,sum(v)\n0,\n"),
    ("--agg sum:v", "g,v\n", "sum(v)\n\"\"\n"),
    ("--group g --agg count", "g,v\n", "g,count\n"),
    (
        "--group g --agg count,count:v,avg:v",
        "g,v\na,\na,-1\na,0\na,0\n",
        "g,count,count(v),avg(v)\na,4,3,-0.3333\n",
    ),
    (
        "--agg sum:v",
        "v\n9223372036854775807\n9223372036854775807\n",
        "sum(v)\n18446744073709551614\n",
    ),
    (
        "--group a,b --agg sum:v",
        "a,b,v\nx,yz,1\nxy,z,2\n",
        "a,b,sum(v)\nx,yz,1\nxy,z,2\n",
    ),
    // An encoded key begins with a length: in their order `b` would come before `aa`.
    (
        "--group a,b --agg count",
        "a,b\nb,x\naa,x\na,zz\na,b\n,x\na,b\n",
        "a,b,count\n,x,1\na,b,2\na,zz,1\naa,x,1\nb,x,1\n",
    ),
    (
        "--group item --agg count",
        "item\n\"box, large\"\n\"box, large\"\n",
        "item,count\n\"box, large\",2\n",
    ),
    (
        "--group g --agg min:v,max:v,avg:v",
        "g,v\na,\nb, 7 \nb,-3\nb,+5\n",
        "g,min(v),max(v),avg(v)\na,,,\nb,-3,7,3.0000\n",
    ),
    ("--agg avg:v", "v\n1\n1\n0\n", "avg(v)\n0.6667\n"),
    (
        "--agg avg:v",
        "v\n0\n0\n0\n0\n0\n0\n0\n",
        "avg(v)\n0.0000\n",
    ),
    ("--agg avg:v", "v\n-9999\n-10000\n", "avg(v)\n-9999.5000\n"),
    (
        "--agg avg:v",
        "v\n-9223372036854775808\n-9223372036854775808\n",
        "avg(v)\n-9223372036854775808.0000\n",
    ),
    ("--group g --agg max:v", "g,v\n,\n", "g,max(v)\n,\n"),
    (
        "--agg count,count --group v,v",
        "v\n\"a\"\"b\"\n",
        "v,v,count,count\n\"a\"\"b\",\"a\"\"b\",1,1\n",
    ),
];

#[test]
fn tables(rt: HostRuntime) -> Result<(), Fail> {
    for (words, input, want) in TABLES {
        let text = table(rt.alloc(), words, input).ok_or("no table")?;
        assert!(rt; text.as_slice() == want.as_bytes(), "{words}");
    }
    Ok(())
}
