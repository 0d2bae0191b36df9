//! What no clause says: that the calls succeed, on rows and keys that are written out by hand.

ghost use Rattle.std.specs.Prelude.{◌<◌, ◌≤◌, ◌+◌, ℕ, All, IfOk, IfErr, OnOk, length, take, drop};
ghost use Rattle.csv_rows.specs.declared.records.TheConstants.{MOST_RECORDS};
ghost use Rattle.par_model.specs.Columns.{HasColumns};
ghost use Rattle.partial_agg.specs.Blocks.{Explains};
ghost use Rattle.partial_agg.specs.Groups.{AreGroups};
ghost use Rattle.partial_agg.specs.Rows.{IsAccepted, header_width};

use csv_rows::{RowStore, rows};
use par_model::{
    AggState, BoundPlan, Filter, FilterOp, FilterTest, Item, ItemKind, NO_FILTER, NO_VALUES,
    Refusal, SlotState,
};
use partial_agg::{
    BLOCK_ROWS, BlockAnswer, Group, GroupKey, GroupMap, Groups, add_row, combine, empty, kept,
    key_of, refusal,
};
use std::alloc::{AllocError, Global};
use std::test::Fail;

/// The map of all rows, unless one is refused: the caller of CALLING.md. An answer that names a row names the first.
pub(crate) fn all_groups(
    alloc: Global,
    rows: &RowStore,
    plan: &BoundPlan,
) -> Result<GroupMap, BlockAnswer>
    requires few { length rows.now ≤ MOST_RECORDS }
    requires columns { HasColumns plan.now (header_width rows.now) }
    ensures groups { IfOk result (λ groups. AreGroups plan.now (drop 1 rows.now) groups) }
    ensures accepted { OnOk result (All (IsAccepted plan.now (header_width rows.now)) (drop 1 rows.now)) }
    ensures first { IfErr result (λ why. (before : ℕ) × All (IsAccepted plan.now (header_width rows.now)) (take before (drop 1 rows.now)) × Explains plan.now rows.now (before + 1) why) }
{
    let mut groups = GroupMap::new(alloc);
    for block in 0..rows.count().div_ceil(BLOCK_ROWS) {
        match groups.add_block(rows, plan, block) {
            Ok(()) => {}
            Err(why) => return Err(why),
        }
    }
    Ok(groups)
}

/// By the first two columns: the count and the sum of the third, of the rows in which the fourth is not 9.
fn count_plan() -> BoundPlan
    ensures { HasColumns result 4 }
{
    let count = Item {
        kind: ItemKind::Count,
        column: 2,
        places: 0,
    };
    let sum = Item {
        kind: ItemKind::Sum,
        column: 2,
        places: 0,
    };
    let unused = Item {
        kind: ItemKind::Rows,
        column: 0,
        places: 0,
    };
    BoundPlan {
        groups: [0, 1, 0, 0, 0, 0, 0, 0],
        group_count: 2,
        items: [count, sum, unused, unused, unused, unused, unused, unused],
        item_count: 2,
        hash: false,
        filters: [
            Filter {
                column: 3,
                test: FilterTest::Number(FilterOp::NotEqual, 9),
                places: 0,
            },
            NO_FILTER,
            NO_FILTER,
            NO_FILTER,
            NO_FILTER,
            NO_FILTER,
            NO_FILTER,
            NO_FILTER,
        ],
        filter_count: 1,
    }
}

/// The rows of a text with four columns, and the plan over them.
fn query(rt: &HostRuntime, text: &[u8]) -> Result<(RowStore, BoundPlan), Fail>
    ensures few { IfOk result (λ query. length query.0 ≤ MOST_RECORDS) }
    ensures columns { IfOk result (λ query. HasColumns query.1 (header_width query.0)) }
{
    let store = match rows(rt.alloc(), text) {
        Ok(store) => store,
        Err(_) => return Err(Fail::new("no rows")),
    };
    if store.width(0) != 4 {
        return Err(Fail::new("not four columns"));
    }
    Ok((store, count_plan()))
}

/// A table of one row, which begins with this many letters.
fn long_text(alloc: Global, letters: usize, rest: &[u8]) -> Result<Vec<u8>, AllocError> {
    let mut text = Vec::from_slice(alloc, b"a,b,v,w\n")?;
    for _ in 0..letters {
        text.push(b'k')?;
    }
    text.extend_from_slice(rest)?;
    Ok(text)
}

/// Adds a row by the calls for one row.
fn add_by_hand(
    groups: &mut GroupMap,
    rows: &RowStore,
    row: u64,
    plan: &BoundPlan,
) -> Result<(), AllocError>
    requires row { row < length rows.now }
    requires columns { HasColumns plan.now (header_width rows.now) }
{
    if refusal(rows, row, plan).is_none() {
        if kept(rows, row, plan) {
            let mut state = empty();
            add_row(&mut state, rows, row, plan);
            groups.add(key_of(rows, row, plan), &state)?;
        }
    }
    Ok(())
}

/// Two keys whose columns are the same bytes one after the other; a value that is null; rows that are left out, for a 9
/// and for a null, one of them with fields that would be refused.
const ROWS: &[u8] = b"a,b,v,w\nxy,z,2,0\nx,yz,1,1\nx,yz,one,9\nxy,z,,2\nxy,z,-5,3\nxy,z,7,\n";

/// The groups of the rows of a text, block by block.
fn groups_of_text(rt: &HostRuntime, text: &[u8]) -> Result<GroupMap, Fail> {
    let (store, plan) = query(rt, text)?;
    match all_groups(rt.alloc(), &store, &plan) {
        Ok(groups) => Ok(groups),
        Err(_) => Err(Fail::new("a row is refused")),
    }
}

/// The groups of the rows of a text, by the calls for one row.
fn groups_by_hand(rt: &HostRuntime, text: &[u8]) -> Result<GroupMap, Fail> {
    let (store, plan) = query(rt, text)?;
    let mut groups = GroupMap::new(rt.alloc());
    for row in 1..=store.count() {
        add_by_hand(&mut groups, &store, row, &plan)?;
    }
    Ok(groups)
}

/// Whether this is the group of a key, with this many rows and these two slots.
fn is_group(group: &Group, key: &[u8], rows: u64, slots: [SlotState; 2]) -> bool {
    group.key.bytes() == key
        && group.state.rows == rows
        && group.state.slots[0] == slots[0]
        && group.state.slots[1] == slots[1]
}

/// Whether these are the groups of [`ROWS`].
fn are_of_rows(list: &Groups) -> bool {
    if list.len() != 2 {
        return false;
    }
    let one = SlotState {
        count: 1,
        ..NO_VALUES
    };
    let two = SlotState {
        count: 2,
        ..NO_VALUES
    };
    let sums = SlotState {
        count: 2,
        sum: -3,
        least: -5,
        greatest: 2,
    };
    let ones = [one, one_value(1).slots[1]];
    is_group(&list.get(0), b"\x01\0\0\0x\x02\0\0\0yz", 1, ones)
        && is_group(&list.get(1), b"\x02\0\0\0xy\x01\0\0\0z", 3, [two, sums])
}

#[test]
fn groups_of_a_block(rt: HostRuntime) -> Result<(), Fail> {
    let groups = groups_of_text(&rt, ROWS)?;
    assert_eq!(rt; groups.len(), 2);
    assert!(rt; are_of_rows(&groups.into_groups()));
    Ok(())
}

/// Whether two maps have the same groups, this many, one after the other.
fn give_the_same(one: &mut GroupMap, other: &mut GroupMap, count: usize) -> bool {
    if one.len() != count {
        return false;
    }
    for _ in 0..count {
        match (one.take_first(), other.take_first()) {
            (Some((key, state)), Some((same_key, same_state))) => {
                if key != same_key || state != same_state {
                    return false;
                }
            }
            _ => return false,
        }
    }
    other.take_first().is_none()
}

/// The calls for one row come to the groups of the calls for a block.
#[test]
fn rows_by_hand(rt: HostRuntime) -> Result<(), Fail> {
    let mut by_hand = groups_by_hand(&rt, ROWS)?;
    let mut by_block = groups_of_text(&rt, ROWS)?;
    assert!(rt; give_the_same(&mut by_hand, &mut by_block, 2));
    Ok(())
}

/// Adds each group of a map twice to another map. The groups are read where they lie, into one state.
fn add_twice(groups: &GroupMap, others: &mut GroupMap) -> Result<(), AllocError> {
    let mut state = empty();
    let lent = groups.lent();
    for at in 0..lent.len() {
        lent.read_state(at, &mut state, 2);
        others.add_bytes(lent.key(at), &state)?;
        others.add_bytes(lent.key(at), &state)?;
    }
    Ok(())
}

/// Whether these are the groups of [`ROWS`] twice, by the second of them, which is read into a state that was used.
fn are_of_rows_twice(list: &Groups) -> bool {
    list.keys_rise();
    let lent = list.lent();
    if lent.len() != 2 {
        return false;
    }
    let mut state = one_value(7);
    lent.read_state(1, &mut state, 1);
    lent.key(1) == b"\x02\0\0\0xy\x01\0\0\0z".as_slice()
        && state.rows == 6
        && state.slots[0].count == 4
}

/// The groups of [`ROWS`] twice.
fn groups_twice(rt: &HostRuntime) -> Result<GroupMap, Fail> {
    let groups = groups_of_text(rt, ROWS)?;
    let mut others = GroupMap::new(rt.alloc());
    add_twice(&groups, &mut others)?;
    Ok(others)
}

/// Groups are read where they lie, and come to another map.
#[test]
fn lent_groups(rt: HostRuntime) -> Result<(), Fail> {
    let others = groups_twice(&rt)?;
    assert!(rt; are_of_rows_twice(&others.into_groups()));
    Ok(())
}

/// Why the one row of [`long_text`] is refused.
fn refusal_after(rt: &HostRuntime, letters: usize, rest: &[u8]) -> Result<Option<Refusal>, Fail> {
    let text = long_text(rt.alloc(), letters, rest)?;
    let (store, plan) = query(rt, text.as_slice())?;
    if store.count() != 1 {
        return Err(Fail::new("not one row"));
    }
    Ok(refusal(&store, 1, &plan))
}

/// Letters and what follows them, and why that row is refused: the first cause that holds, and none if the filter
/// leaves it out.
const REFUSALS: [(usize, &[u8], Option<(u8, u32)>); 19] = [
    (1, b",y,9223372036854775807,0\n", None),
    (1, b",y,-9223372036854775808,+0\n", None),
    (1, b",y, +1 ,-1\n", None),
    (1, b",y,1\n", Some((1, 0))),
    (1, b",y,one,0,5\n", Some((1, 0))),
    (240, b",y,one,none,5\n", Some((1, 0))),
    (1, b",y,1,9223372036854775808\n", Some((4, 0))),
    (240, b",y,one,none\n", Some((4, 0))),
    (238, b",y,1,0\n", None),
    (239, b",y,1,0\n", None),
    (240, b",y,1,0\n", Some((2, 0))),
    (240, b",y,one,0\n", Some((2, 0))),
    (300, b",,1,0\n", Some((2, 0))),
    (300, b",y,one,9\n", None),
    (300, b",y,one,\n", None),
    (1, b",y,9223372036854775808,0\n", Some((3, 1))),
    (1, b",y,1\xFF,0\n", Some((3, 1))),
    (1, b",y,,0\n", None),
    (0, b",,,\n", None),
];

#[test]
fn refusals(rt: HostRuntime) -> Result<(), Fail> {
    for (letters, rest, want) in REFUSALS {
        let found = refusal_after(&rt, letters, rest)?;
        let want = want.map(|(cause, item)| Refusal { cause, item });
        assert!(rt; found == want, "{:?} of {letters} and {:?}", found, rest);
    }
    Ok(())
}

/// A state of one row, whose second aggregate has this value.
fn one_value(n: i64) -> AggState {
    let mut state = empty();
    state.rows = 1;
    state.slots[1] = SlotState {
        count: 1,
        sum: i128::from(n),
        least: n,
        greatest: n,
    };
    state
}

#[test]
fn states_combine(rt: HostRuntime) {
    let mut state = one_value(-2);
    combine(&mut state, &empty());
    combine(&mut state, &one_value(9));
    let both = SlotState {
        count: 2,
        sum: 7,
        least: -2,
        greatest: 9,
    };
    assert!(rt; state.rows == 2 && state.slots[0].count == 0 && state.slots[1] == both);
}

#[test]
fn longest_keys(rt: HostRuntime) {
    assert!(rt; GroupKey::of(&[b'k'; 247]).is_some());
    assert!(rt; GroupKey::of(&[b'k'; 248]).is_some());
    assert!(rt; GroupKey::of(&[b'k'; 249]).is_none());
}
