//! What no clause says: that words are read, and what `clap` makes of them.

ghost use Rattle.std.specs.Prelude.{◌≡◌, IfSome, length, map, string_bytes};
ghost use Rattle.csv_rows.specs.Records.{record_at};
ghost use Rattle.par_model.specs.Columns.{HasColumns};
ghost use Rattle.par_model.specs.Named.{bound_plan};
ghost use Rattle.plan_spec.specs.Query.{query_of};

use csv_rows::{RowStore, rows};
use par_model::BoundPlan;
use plan_spec::{Plan, PlanAnswer, is_merge};
use std::alloc::{AllocError, Global};
use std::test::Fail;

fn owned(alloc: Global, words: &str) -> Result<Vec<String>, AllocError> {
    let mut list = Vec::new(alloc);
    for word in words.split(' ') {
        let word = String::from_str(alloc, word)?;
        if list.push(word).is_err() {
            return Err(AllocError);
        }
    }
    Ok(list)
}

/// The plan of the words over the columns of the store's header, if there is one: the caller of
/// CALLING.md.
fn bound_words(alloc: Global, words: &[String], store: &RowStore) -> Option<BoundPlan>
    ensures plan { IfSome result (λ bound. IfSome (query_of (map string_bytes words.now)) (λ query. bound ≡ bound_plan (record_at store.now 0) query.plan)) }
    ensures columns { IfSome result (λ bound. HasColumns bound (length (record_at store.now 0))) }
{
    let plan = Plan::of_words(alloc, words).ok()?;
    plan.bind(store).ok()
}

/// Words, and whether they are a plan.
const PLANS: [(&str, bool); 22] = [
    ("--agg count", true),
    ("--agg=count,sum:v,avg:a:b", true),
    (
        "--group g,h --agg count --where v>=-3 --workers 64 --plan hash --area-pages 0",
        true,
    ),
    ("--where=v=9223372036854775807 --agg count", true),
    ("--agg count --", true),
    ("--where=-v=1 --agg count", true),
    ("--group g", false),
    ("", false),
    ("--agg avg", false),
    ("--agg sum:", false),
    ("--agg count,", false),
    ("--agg count --agg count", false),
    ("--group g,,h --agg count", false),
    ("--group a,b,c,d,e,f,g,h,i --agg count", false),
    ("--agg count --where v=", false),
    ("--agg count --where v==1", false),
    ("--agg count --where =1", false),
    ("--agg count --workers 65", false),
    ("--agg count --workers +1", false),
    ("--agg count --plan sort", false),
    ("--agg count --area-pages 65537", false),
    ("--help", false),
];

/// Whether words are a plan.
fn is_plan(alloc: Global, words: &str) -> Result<bool, Fail> {
    let list = owned(alloc, words)?;
    match Plan::of_words(alloc, list.as_slice()) {
        Ok(_plan) => Ok(true),
        Err(PlanAnswer::Usage) => Ok(false),
        Err(PlanAnswer::Memory) => Err(Fail::new("memory")),
    }
}

#[test]
fn plans(rt: HostRuntime) -> Result<(), Fail> {
    for (words, wanted) in PLANS {
        assert!(rt; is_plan(rt.alloc(), words)? == wanted, "{words}");
    }
    Ok(())
}

/// Words, whether they begin as those that ask for rows in order, and whether they do.
const MERGES: [(&str, bool, bool); 10] = [
    ("merge g 0", true, true),
    ("merge a,b,c,d,e,f,g,h 00064", true, true),
    ("merge --agg 1", true, true),
    ("merge g", true, false),
    ("merge g 1 1", true, false),
    ("merge g,,h 1", true, false),
    ("merge a,b,c,d,e,f,g,h,i 1", true, false),
    ("merge g 65", true, false),
    ("merge g 000001", true, false),
    ("Merge g 1", false, false),
];

/// Whether words begin as those that ask for rows in order, and whether they do.
fn is_merge_plan(alloc: Global, words: &str) -> Result<(bool, bool), Fail> {
    let list = owned(alloc, words)?;
    let begins = is_merge(list.as_slice());
    match Plan::of_merge_words(alloc, list.as_slice()) {
        Ok(_plan) => Ok((begins, true)),
        Err(PlanAnswer::Usage) => Ok((begins, false)),
        Err(PlanAnswer::Memory) => Err(Fail::new("memory")),
    }
}

#[test]
fn merges(rt: HostRuntime) -> Result<(), Fail> {
    for (words, begins_so, wanted) in MERGES {
        let found = is_merge_plan(rt.alloc(), words)?;
        assert!(rt; found == (begins_so, wanted), "{words}");
    }
    Ok(())
}

/// A header that has one name twice.
fn header(alloc: Global) -> Result<RowStore, Fail> {
    match rows(alloc, b"g,v,g\n") {
        Ok(store) => Ok(store),
        Err(_) => Err(Fail::new("no rows")),
    }
}

/// Words with a group, an aggregate with a column and one without, and a filter.
const WORDS: &str = "--group g --agg count,sum:v --where v<2 --workers 7";

/// A plan bound to a header.
#[test]
fn binds(rt: HostRuntime) -> Result<(), Fail> {
    let store = header(rt.alloc())?;
    let list = owned(rt.alloc(), WORDS)?;
    let bound = bound_words(rt.alloc(), list.as_slice(), &store).ok_or("no plan")?;
    assert!(rt; bound.group_columns().first() == Some(&0));
    assert!(rt; bound.items().len() == 2);
    assert!(rt; bound.items().last().is_some_and(|item| item.column == 1));
    assert!(rt; bound.filters().len() == 1 && !bound.hash);
    Ok(())
}
