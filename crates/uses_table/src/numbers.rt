//! A hundred numbers put, put again, summed and taken; and an area without room.

ghost use Rattle.std.specs.Prelude.{◌≡◌, ◌≤◌, IfOk};
ghost use Rattle.dsa_area.specs.Shown.{Belongs as AreaBelongs, IsArea};
ghost use Rattle.dshash_numbers.specs.Maps.{ComesFrom, IsNumberTable};

use crate::parts;
use dsa_area::{Area, AreaPass, NoSpace};
use dshash_numbers::{NumberTable, Total};
use region_words::Region;
use std::alloc::{AllocError, Global};
use std::sync::Wait;
use std::test::Fail;

/// A region with an area of this many pages after its first word, and the pass of its one caller.
pub(crate) fn area_for(alloc: Global, pages: u32) -> Result<(Region, Area, AreaPass), AllocError>
    requires few { pages ≤ 65536 }
    ensures area { IfOk result (λ a. IsArea a.0 a.1) }
    ensures own { IfOk result (λ a. AreaBelongs a.1 a.2) }
{
    let (region, area, mut passes) = parts::area_for(alloc, pages, 1)?;
    let Some(pass) = passes.pop() else {
        unreachable!()
    };
    Ok((region, area, pass))
}

/// Puts a number under its own bytes.
fn put_one<R: Wait>(
    rt: &R,
    table: &mut NumberTable,
    r: &Region,
    area: &Area,
    apass: &mut AreaPass,
    number: u64,
) -> Result<Option<u64>, NoSpace>
    requires table { IsNumberTable r.now table.old }
    requires area { IsArea r.now area.now }
    requires home { ComesFrom area.now table.old }
    requires own { AreaBelongs area.now apass.old }
    ensures table { IsNumberTable r.now table.new }
    ensures home { ComesFrom area.now table.new }
    ensures own { AreaBelongs area.now apass.new }
{
    table.put(rt, r, area, apass, &number.to_le_bytes(), number)
}

/// Puts this many numbers. How many of the keys were new, and how many puts were refused.
fn put_all<R: Wait>(
    rt: &R,
    table: &mut NumberTable,
    r: &Region,
    area: &Area,
    apass: &mut AreaPass,
    count: u64,
) -> (u64, u64)
    requires table { IsNumberTable r.now table.old }
    requires area { IsArea r.now area.now }
    requires home { ComesFrom area.now table.old }
    requires own { AreaBelongs area.now apass.old }
    ensures table { IsNumberTable r.now table.new }
    ensures home { ComesFrom area.now table.new }
    ensures own { AreaBelongs area.now apass.new }
{
    let mut new = 0u64;
    let mut refused = 0u64;
    for number in 0..count {
        match put_one(rt, table, r, area, apass, number) {
            Ok(None) => new = new.saturating_add(1),
            Ok(Some(_)) => {}
            Err(_) => refused = refused.saturating_add(1),
        }
    }
    (new, refused)
}

/// Gets a number, takes it, and takes it again: what each call gives.
fn taken_twice<R: Wait>(
    rt: &R,
    table: &mut NumberTable,
    r: &Region,
    area: &Area,
    apass: &mut AreaPass,
    number: u64,
) -> (Option<u64>, Option<u64>, Option<u64>)
    requires table { IsNumberTable r.now table.old }
    requires area { IsArea r.now area.now }
    requires home { ComesFrom area.now table.old }
    requires own { AreaBelongs area.now apass.old }
    ensures table { IsNumberTable r.now table.new }
    ensures home { ComesFrom area.now table.new }
    ensures own { AreaBelongs area.now apass.new }
{
    let key = number.to_le_bytes();
    let got = table.get(rt, r, &key);
    let first = table.take(rt, r, area, apass, &key);
    (got, first, table.take(rt, r, area, apass, &key))
}

/// What is answered in a new table: of a number before it is put, of this many puts and of the same again, of the number
/// then, and what the table's numbers are and come to.
#[derive(Drop)]
struct Answered {
    before: (Option<u64>, Option<u64>, Option<u64>),
    first: (u64, u64),
    again: (u64, u64),
    taken: (Option<u64>, Option<u64>, Option<u64>),
    total: Option<Total>,
}

/// What a table answers in an area of this many pages.
fn answered_in<R: Wait>(rt: &R, alloc: Global, pages: u32, count: u64) -> Result<Answered, Fail>
    requires few { pages ≤ 65536 }
{
    let (region, area, mut apass) = area_for(alloc, pages)?;
    let Ok(mut table) = NumberTable::new(rt, alloc, &region, &area, &mut apass) else {
        return Err(Fail::new("no table"));
    };
    let before = taken_twice(rt, &mut table, &region, &area, &mut apass, 7);
    let first = put_all(rt, &mut table, &region, &area, &mut apass, count);
    let again = put_all(rt, &mut table, &region, &area, &mut apass, count);
    let taken = taken_twice(rt, &mut table, &region, &area, &mut apass, 7);
    let total = table.total(rt, alloc, &region).ok();
    Ok(Answered {
        before,
        first,
        again,
        taken,
        total,
    })
}

#[test]
fn a_hundred_numbers(rt: HostRuntime) -> Result<(), Fail> {
    let answered = answered_in(&rt, rt.alloc(), 512, 100)?;
    assert!(rt; answered.before == (None, None, None));
    assert!(rt; answered.first == (100, 0) && answered.again == (0, 0));
    assert!(rt; answered.taken == (Some(7), Some(7), None));
    assert!(rt;
        matches!(
            answered.total,
            Some(Total {
                count: 99,
                sum: 4_943
            })
        )
    );
    Ok(())
}

#[test]
fn an_area_without_room(rt: HostRuntime) -> Result<(), Fail> {
    let answered = answered_in(&rt, rt.alloc(), 16, 3)?;
    assert!(rt; answered.first == (0, 3));
    assert!(rt; matches!(answered.total, Some(Total { count: 0, sum: 0 })));
    Ok(())
}
