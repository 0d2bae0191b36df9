//! Two threads put and get keys of their own, while the table doubles under them; then one of them takes all entries
//! out.

ghost use Rattle.std.specs.Prelude.{◌≡◌, ℕ, ◌+◌, ◌^◌, ◌<◌, ◌≤◌, IfOk};
ghost use Rattle.lock_book.specs.Shown.{number_of};
ghost use Rattle.dshash_parts.specs.Tables.{callers_of};
ghost use Rattle.dshash_parts.specs.Uses.{IsAtHome};

use super::{area_for, drain_all, put_and_get};
use dsa_area::{Area, AreaPass};
use dshash_numbers::Number;
use dshash_parts::{DsPass, Dshash};
use lock_book::two_of;
use region_words::Region;
use std::alloc::{AllocError, Global};
use std::sync::Wait;
use std::test::Fail;
use std::thread::{Threads, join};

/// A caller's two passes.
#[derive(Drop)]
struct Passes {
    table: DsPass<Number>,
    area: AreaPass,
}

/// A table of keys of one word for two callers, in an area of its own, and the passes of the two.
fn table_for_two<R: Wait>(
    rt: &R,
    alloc: Global,
    pages: u32,
) -> Result<(Region, Area, Dshash<Number>, Passes, Passes), Fail>
    requires few { pages ≤ 65536 }
    ensures callers { IfOk result (λ a. callers_of a.2 ≡ 2) }
    ensures zero { IfOk result (λ a. IsAtHome a.0 a.1 a.2 1 a.3.table a.3.area × (number_of a.3.table ≡ 0)) }
    ensures one { IfOk result (λ a. IsAtHome a.0 a.1 a.2 1 a.4.table a.4.area × (number_of a.4.table ≡ 1)) }
{
    let (region, area, apasses) = area_for(alloc, pages, 2)?;
    let (area_zero, mut area_one) = two_of(apasses);
    let Ok((table, passes)) = Dshash::new(rt, alloc, &region, &area, &mut area_one, 1, 2) else {
        return Err(Fail::new("no table"));
    };
    let (zero, one) = two_of(passes);
    let zero = Passes {
        table: zero,
        area: area_zero,
    };
    let one = Passes {
        table: one,
        area: area_one,
    };
    Ok((region, area, table, zero, one))
}

/// A caller puts this many keys from one on and gets them. Says how often each of the two went as it has to.
fn caller<R: Wait>(
    rt: &R,
    table: &Dshash<Number>,
    r: &Region,
    area: &Area,
    mut passes: Passes,
    from: u64,
    count: u64,
) -> (Passes, (u64, u64))
    requires home { IsAtHome r.now area.now table.now 1 passes.table passes.area }
    requires few { from + count < 2 ^ 64 }
    ensures home { IsAtHome r.now area.now table.now 1 result.0.table result.0.area }
{
    let Passes {
        table: mut pass,
        area: mut apass,
    } = passes;
    let good = put_and_get(rt, table, r, area, &mut pass, &mut apass, from, count);
    let passes = Passes {
        table: pass,
        area: apass,
    };
    (passes, good)
}

/// Two threads do so, each with keys of its own. The first one's passes, and what each says.
fn two_callers<R: Threads + Wait + Sync>(
    rt: &R,
    table: &Dshash<Number>,
    r: &Region,
    area: &Area,
    zero: Passes,
    one: Passes,
    count: u64,
) -> (Passes, (u64, u64), (u64, u64))
    requires zero { IsAtHome r.now area.now table.now 1 zero.table zero.area }
    requires one { IsAtHome r.now area.now table.now 1 one.table one.area }
    requires few { count ≤ 1000000 }
    ensures home { IsAtHome r.now area.now table.now 1 result.0.table result.0.area }
{
    let ((zero, good), (_one, also)) = join(
        rt,
        || caller(rt, table, r, area, zero, 0, count),
        || caller(rt, table, r, area, one, 1_000_000, count),
    );
    (zero, good, also)
}

/// Takes all entries out with a caller's passes. Says how many there were.
fn drained_by<R: Wait>(
    rt: &R,
    alloc: Global,
    table: &Dshash<Number>,
    r: &Region,
    area: &Area,
    passes: &mut Passes,
) -> Result<u64, AllocError>
    requires home { IsAtHome r.now area.now table.now 1 passes.old.table passes.old.area }
    ensures home { IsAtHome r.now area.now table.now 1 passes.new.table passes.new.area }
{
    drain_all(
        rt,
        alloc,
        table,
        r,
        area,
        &mut passes.table,
        &mut passes.area,
    )
}

#[test]
fn two_threads_while_the_table_doubles(rt: HostRuntime) -> Result<(), Fail> {
    let (region, area, table, zero, one) = table_for_two(&rt, rt.alloc(), 512)?;
    let (mut zero, good, also) = two_callers(&rt, &table, &region, &area, zero, one, 500);
    assert!(rt; good == (500, 500) && also == (500, 500));
    let taken = drained_by(&rt, rt.alloc(), &table, &region, &area, &mut zero);
    assert!(rt; taken.expect(&rt, "memory") == 1000);
    Ok(())
}
