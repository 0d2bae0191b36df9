//! What no clause says: that a table with room takes the groups. And what its entries come to, by values.

ghost use Rattle.std.specs.Prelude.{◌≡◌, ◌≤◌, [], IfOk, List, OnOk};
ghost use Rattle.agg_table.specs.Calls.{Group, HasPut};
ghost use Rattle.agg_table.specs.Shown.{AreUnusedSeats, IsPart, IsSeat, IsUnusedBy, callers_of, number_at, use_of};

use agg_table::{HashPart, HashSeat, drain, open, part_words};
use par_model::{AggState, NO_VALUES};
use partial_agg::{GroupKey, GroupMap};
use region_words::Region;
use std::alloc::Global;
use std::sync::Wait;
use std::test::Fail;

/// A table in its own region, and the seat of its one participant.
fn table_for_one(alloc: Global, pages: u32) -> Result<(Region, HashPart, Vec<HashSeat>), Fail>
    requires pages { pages ≤ 65536 }
    ensures part { IfOk result (λ t. IsPart t.0 t.1) }
    ensures callers { IfOk result (λ t. callers_of t.1 ≡ 1) }
    ensures seats { IfOk result (λ t. AreUnusedSeats t.1 t.2.items) }
{
    let words = part_words(pages);
    let (region, mut part) = Region::new(alloc, words as usize + 1)?;
    let chunk = part.split_chunk(&region, 1, words);
    let (table, seats) = open(alloc, &region, chunk, pages, 1)?;
    Ok((region, table, seats))
}

/// Puts the keys 0, 1, 0 and 1 in, each with a state of this many rows.
fn put_four<R: Wait>(
    rt: &R,
    r: &Region,
    part: &HashPart,
    seat: &mut HashSeat,
    rows: u64,
) -> Result<(), Fail>
    requires part { IsPart r.now part.now }
    requires seat { IsSeat part.now seat.old }
    requires unused { IsUnusedBy 0 seat.old }
    ensures seat { IsSeat part.now seat.new }
    ensures number { number_at seat.new ≡ 0 }
    ensures put { OnOk result ((put : List Group) × HasPut put (use_of seat.new) put []) }
{
    let state = AggState {
        rows,
        slots: [NO_VALUES; 8],
    };
    for number in 0..4u8 {
        let key = GroupKey::of(&[number % 2]).ok_or("a long key")?;
        if !part.put(rt, r, seat, &key, &state) {
            return Err(Fail::new("no room"));
        }
    }
    Ok(())
}

/// Adds what a table of these four comes to.
fn gather_four<R: Wait>(
    rt: &R,
    alloc: Global,
    rows: u64,
    groups: &mut GroupMap,
) -> Result<(), Fail> {
    let (region, part, mut seats) = table_for_one(alloc, 64)?;
    let Some(mut seat) = seats.pop() else {
        unreachable!()
    };
    put_four(rt, &region, &part, &mut seat, rows)?;
    let seats = vec![in alloc; seat]?;
    let tables = Vec::with_capacity(alloc, 1)?;
    let areas = Vec::with_capacity(alloc, 1)?;
    let (mut table, _areas) = part.close(seats, tables, areas);
    drain(alloc, &region, &mut table, groups)?;
    Ok(())
}

#[test]
fn a_table_is_added_to_a_map(rt: HostRuntime) -> Result<(), Fail> {
    let mut groups = GroupMap::new(rt.alloc());
    gather_four(&rt, rt.alloc(), 3, &mut groups)?;
    gather_four(&rt, rt.alloc(), 20, &mut groups)?;
    let groups = groups.into_groups();
    assert!(rt; groups.len() == 2);
    for at in 0..groups.len() {
        assert!(rt; groups.key(at) == [at as u8].as_slice() && groups.state(at).rows == 46);
    }
    Ok(())
}
