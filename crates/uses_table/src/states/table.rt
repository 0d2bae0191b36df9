//! A table of groups: what is called under a key twice stands there once, combined.

ghost use Rattle.std.specs.Prelude.{◌≡◌, ◌≤◌, ◌++◌, ◌∷◌, [], ℕ, List, OnOk, length};
ghost use Rattle.lock_book.specs.Shown.{seen_of};
ghost use Rattle.dsa_area.specs.Shown.{Belongs as AreaBelongs, IsArea};
ghost use Rattle.dshash_parts.specs.Tables.{Belongs, IsHome, IsTable, key_words_of};
ghost use Rattle.par_model.specs.declared.state.AggState.{AggState};
ghost use Rattle.agg_cell.specs.Called.{all_combined, called_in, stands};

use super::{one_row, two_rows};
use crate::one::table_for_one;
use agg_cell::AggObject;
use dsa_area::{Area, AreaPass, NoSpace};
use dshash_core::Entry;
use dshash_parts::{DsPass, Dshash};
use par_model::AggState;
use region_words::Region;
use std::alloc::{AllocError, Global};
use std::sync::Wait;
use std::test::Fail;

/// Calls a key with a state. What stands under each key then, as far as the pass has seen, is all that it was called
/// with; of a call that had room, this state is the last.
fn add<R: Wait>(
    rt: &R,
    table: &Dshash<AggObject>,
    r: &Region,
    area: &Area,
    pass: &mut DsPass<AggObject>,
    apass: &mut AreaPass,
    key: &[u64],
    state: &AggState,
) -> Result<(), NoSpace>
    requires table { IsTable r.now table.now }
    requires key { length key.now ≡ key_words_of table.now }
    requires own { Belongs table.now pass.old }
    requires area { IsArea r.now area.now }
    requires home { IsHome area.now table.now }
    requires area_own { AreaBelongs area.now apass.old }
    ensures own { Belongs table.now pass.new }
    ensures area_own { AreaBelongs area.now apass.new }
    ensures all { (k : List ℕ) → stands (seen_of pass.new) k ≡ all_combined (called_in (seen_of pass.new) k) }
    ensures last { OnOk result ((before : List AggState) × (called_in (seen_of pass.new) key.now ≡ before ++ state.now ∷ [])) }
{
    table.call(rt, r, area, pass, apass, key, state)
}

/// Calls the keys from 0 on, this many of them, with a state. Says how many calls had room.
fn call_all<R: Wait>(
    rt: &R,
    table: &Dshash<AggObject>,
    r: &Region,
    area: &Area,
    pass: &mut DsPass<AggObject>,
    apass: &mut AreaPass,
    keys: u64,
    state: &AggState,
) -> u64
    requires table { IsTable r.now table.now }
    requires keys { key_words_of table.now ≡ 1 }
    requires own { Belongs table.now pass.old }
    requires area { IsArea r.now area.now }
    requires home { IsHome area.now table.now }
    requires area_own { AreaBelongs area.now apass.old }
    ensures own { Belongs table.now pass.new }
    ensures area_own { AreaBelongs area.now apass.new }
    ensures few { result ≤ keys }
{
    let mut made = 0;
    for key in 0..keys {
        if add(rt, table, r, area, pass, apass, &[key], state).is_ok() {
            made += 1;
        }
    }
    made
}

fn with_state(entries: &[Entry<AggObject>], state: &AggState) -> usize {
    entries.iter().filter(|entry| entry.state == *state).count()
}

/// How many keys of the table have this state.
fn listed<R: Wait>(
    rt: &R,
    alloc: Global,
    table: &Dshash<AggObject>,
    r: &Region,
    pass: &mut DsPass<AggObject>,
    state: &AggState,
) -> Result<usize, AllocError>
    requires table { IsTable r.now table.now }
    requires own { Belongs table.now pass.old }
    ensures own { Belongs table.now pass.new }
{
    let mut keys = 0usize;
    for number in 0..128 {
        let entries = table.list_one(rt, alloc, r, pass, number)?;
        keys = keys.saturating_add(with_state(entries.as_slice(), state));
    }
    Ok(keys)
}

#[test]
fn a_table_adds_up_what_is_called(rt: HostRuntime) -> Result<(), Fail> {
    let (region, area, table, mut pass, mut apass) = table_for_one(&rt, rt.alloc(), 64, 0, 1)?;
    let (one, two) = (one_row(), two_rows());
    let first = call_all(&rt, &table, &region, &area, &mut pass, &mut apass, 60, &one);
    let second = call_all(&rt, &table, &region, &area, &mut pass, &mut apass, 40, &two);
    let mut both = one;
    partial_agg::combine(&mut both, &two);
    let added = listed(&rt, rt.alloc(), &table, &region, &mut pass, &both).expect(&rt, "memory");
    let alone = listed(&rt, rt.alloc(), &table, &region, &mut pass, &one).expect(&rt, "memory");
    assert!(rt; first == 60 && second == 40 && added == 40 && alone == 20);
    Ok(())
}
