//! Descriptors that are written and read, through a table of contents and word by word.

ghost use Rattle.std.specs.Prelude.{◌≡◌, ◌<◌, ℕ, IsSome, Some, true};
ghost use Rattle.par_model.specs.Plain.{is_plain};
ghost use Rattle.word_map.specs.WordMap.{at as word_at, HasJust};

use par_model::{BoundPlan, Filter, FilterOp, FilterTest, Item, ItemKind, NO_FILTER};
use plan_descriptor::{BadDescriptor, PLAN_KEY, plan_in, read_plan, write_plan};
use region_words::{Chunk, Part, Region};
use shm_toc::Toc;
use std::alloc::Global;
use std::test::Fail;

/// An item that is not used.
const UNUSED: Item = Item {
    kind: ItemKind::Rows,
    column: 0,
    places: 0,
};

/// Writes a plan after a table of contents, freezes it, and reads the plan that the key names: the caller of
/// CALLING.md.
fn through_a_table(r: &Region, part: Part, plan: &BoundPlan) -> Option<BoundPlan>
    requires here { part.region ≡ r.now }
    requires owns { HasJust part.words 0 48 }
    requires plain { is_plain plan.now ≡ true }
    ensures { result ≡ Some plan.now }
{
    let mut toc = Toc::create(r, part, 48, 1601);
    let Ok(mut chunk) = toc.allocate(r, 256) else {
        return None;
    };
    write_plan(plan, r, &mut chunk);
    let at = chunk.at;
    let Ok(()) = toc.insert(r, PLAN_KEY, at) else {
        return None;
    };
    toc.keep(r, chunk);
    let mut toc = toc.freeze(r);
    Some(plan_in(&mut toc, r))
}

/// The part of the first 48 words of a new region.
fn first_words(r: &Region, part: &mut Part) -> Part
    requires here { part.old.region ≡ r.now }
    requires owns { (k : ℕ) → k < 48 → IsSome (word_at part.old.words k) }
    ensures here { result.region ≡ r.now }
    ensures owns { HasJust result.words 0 48 }
{
    part.split(r, 0, 48)
}

/// The plan of these words, which are stored in a chunk one by one.
fn plan_of_words(
    r: &Region,
    part: Part,
    words: &[u64; 32],
) -> Option<Result<BoundPlan, BadDescriptor>>
    requires here { part.region ≡ r.now }
    requires owns { HasJust part.words 0 48 }
{
    let mut toc = Toc::create(r, part, 48, 1601);
    let Ok(mut chunk) = toc.allocate(r, 256) else {
        return None;
    };
    store_words(r, &mut chunk, words);
    let at = chunk.at;
    toc.keep(r, chunk);
    let mut toc = toc.freeze(r);
    Some(read_plan(&mut toc, r, at))
}

fn store_words(r: &Region, chunk: &mut Chunk, words: &[u64; 32])
    requires here { chunk.old.part.region ≡ r.now }
    requires room { chunk.old.bytes ≡ 256 }
    ensures place { (chunk.new.at ≡ chunk.old.at) × (chunk.new.bytes ≡ chunk.old.bytes) }
    ensures region { chunk.new.part.region ≡ chunk.old.part.region }
{
    'words: for at in 0..32 {
        chunk.store(r, at as u64, words[at]);
    }
}

/// Two groups, three aggregates, and a filter with this relation.
fn plan_with(op: FilterOp, value: i64) -> BoundPlan
    ensures { is_plain result ≡ true }
{
    let item = |kind, column| Item {
        kind,
        column,
        places: 0,
    };
    BoundPlan {
        groups: [3, 70000, 0, 0, 0, 0, 0, 0],
        group_count: 2,
        items: [
            item(ItemKind::Count, 5),
            UNUSED,
            item(ItemKind::Avg, u32::MAX),
            UNUSED,
            UNUSED,
            UNUSED,
            UNUSED,
            UNUSED,
        ],
        item_count: 3,
        hash: true,
        filters: [
            Filter {
                column: 7,
                test: FilterTest::Number(op, value),
                places: 0,
            },
            NO_FILTER,
            NO_FILTER,
            NO_FILTER,
            NO_FILTER,
            NO_FILTER,
            NO_FILTER,
            NO_FILTER,
        ],
        filter_count: 1,
    }
}

/// The words of `plan_with(LessEqual, -2)` in version 2.
const WORDS: [u64; 32] = [
    2,
    2,
    3,
    1,
    3,
    70000,
    0,
    0,
    0,
    0,
    0,
    0,
    1,
    5,
    0,
    0,
    5,
    4294967295,
    0,
    0,
    0,
    0,
    0,
    0,
    0,
    0,
    0,
    0,
    4,
    7,
    18446744073709551614,
    0,
];

/// The plan that is written into a new region and read there.
fn read_back(alloc: Global, plan: &BoundPlan) -> Result<BoundPlan, Fail>
    requires { is_plain plan.now ≡ true }
{
    let (region, mut part) = Region::new(alloc, 64)?;
    let words = first_words(&region, &mut part);
    Ok(through_a_table(&region, words, plan).ok_or("no room")?)
}

/// What is read of these words in a new region.
fn read_words(alloc: Global, words: &[u64; 32]) -> Result<Result<BoundPlan, BadDescriptor>, Fail> {
    let (region, mut part) = Region::new(alloc, 64)?;
    let part = first_words(&region, &mut part);
    Ok(plan_of_words(&region, part, words).ok_or("no room")?)
}

/// Whether two plans are the same, place by place.
fn are_same(one: &BoundPlan, other: &BoundPlan) -> bool {
    one.groups == other.groups
        && one.group_count == other.group_count
        && one.items == other.items
        && one.item_count == other.item_count
        && one.hash == other.hash
        && are_same_filters(one.filters(), other.filters())
}

/// Whether two lists of at most one filter are the same.
fn are_same_filters(one: &[Filter], other: &[Filter]) -> bool {
    match (one.first(), other.first()) {
        (Some(one), Some(other)) => is_same(one, other),
        (None, None) => true,
        _ => false,
    }
}

/// Whether two filters of numbers are the same.
fn is_same(one: &Filter, other: &Filter) -> bool {
    match (&one.test, &other.test) {
        (FilterTest::Number(op, value), FilterTest::Number(other_op, other_value)) => {
            one.column == other.column
                && one.places == other.places
                && op == other_op
                && value == other_value
        }
        _ => false,
    }
}

#[test]
fn a_plan_reads_back(rt: HostRuntime) -> Result<(), Fail> {
    let relations = [
        FilterOp::Equal,
        FilterOp::NotEqual,
        FilterOp::Less,
        FilterOp::LessEqual,
        FilterOp::Greater,
        FilterOp::GreaterEqual,
    ];
    for op in relations {
        let plan = plan_with(op, i64::MIN);
        assert!(rt; are_same(&read_back(rt.alloc(), &plan)?, &plan));
    }
    Ok(())
}

#[test]
fn both_versions_are_read(rt: HostRuntime) -> Result<(), Fail> {
    for version in [1, 2] {
        let mut words = WORDS;
        words[0] = version;
        let mut plan = plan_with(FilterOp::LessEqual, -2);
        if version == 1 {
            let none = [NO_FILTER; 8];
            plan.filters = none;
            plan.filter_count = 0;
        }
        let read = read_words(rt.alloc(), &words)?.ok().ok_or("no plan")?;
        assert!(rt; are_same(&read, &plan));
    }
    Ok(())
}
