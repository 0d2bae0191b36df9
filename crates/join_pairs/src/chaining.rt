//! The chains of all left rows: those that the table has, and then the rows that it did not take.

ghost use Rattle.std.specs.Prelude.{◌≡◌, ◌<◌, ◌++◌, ℕ, List, [], All, IfOk, OnOk, length, map};
ghost use Rattle.std.specs.List.{flat_map};
ghost use Rattle.csv_rows.specs.Records.{field_of};
ghost use Rattle.dshash_core.specs.Listing.{pairs_of as entries_of};
ghost use Rattle.join_pairs.specs.Gathered.{AreApart, ChainsAll, HasChains, HasLinks, HasPlaces, HasRoom, IsCovered};
ghost use Rattle.join_pairs.specs.Join.{AllAccepted, IsRow, width_of};

use crate::chains::{Chains, Link};
use crate::lasts::Lasts;
use csv_rows::RowStore;
use std::alloc::{AllocError, Global};

/// Sets the rows before those of several lists.
fn link_rows(chains: &mut Chains, links: &Vec<Vec<Link>>)
    requires rows { All (λ (l : Link). HasRoom chains.old l.row) (flat_map (λ v. v.items) links.now.items) }
    ensures linked { HasLinks (flat_map (λ v. v.items) links.now.items) chains.old.befores.items
        chains.new.befores.items }
    ensures room { length chains.new.befores.items ≡ length chains.old.befores.items }
    ensures same { (chains.new.keys ≡ chains.old.keys) × (chains.new.lasts ≡ chains.old.lasts) }
{
    for list in links {
        chains.link_all(list.as_slice());
    }
}

/// Adds rows for which the table found no space, each to the chain of its key.
fn add_rows<L: Lasts>(
    chains: &mut Chains,
    alloc: Global,
    table: &L,
    rows: &RowStore,
    column: u32,
    list: &[u64],
) -> Result<(), AllocError>
    requires column { column < width_of rows.now }
    requires accepted { AllAccepted rows.now column }
    requires rows { All (IsRow rows.now) list.now }
    requires places { HasPlaces chains.old }
    requires room { length chains.old.befores.items ≡ length rows.now }
    ensures places { OnOk result (HasPlaces chains.new) }
    ensures room { length chains.new.befores.items ≡ length chains.old.befores.items }
    ensures added { OnOk result ((known : List ℕ) → AreApart known list.now
        → HasChains rows.now column known (L.last_of table.now) chains.old → HasChains rows.now column (known ++ list.now) (L.last_of table.now) chains.new) }
{
    for row in list {
        match chains.add_row(alloc, table, rows.field(*row, column), *row) {
            Ok(()) => {}
            Err(lack) => return Err(lack),
        }
    }
    Ok(())
}

/// The chains of all rows: those of the table, and then the rows that it did not take.
pub fn chain_all<L: Lasts>(
    alloc: Global,
    rows: &RowStore,
    column: u32,
    table: &L,
    links: &Vec<Vec<Link>>,
    spilled: &Vec<Vec<u64>>,
) -> Result<Chains, AllocError>
    requires column { column < width_of rows.now }
    requires accepted { AllAccepted rows.now column }
    requires covered { IsCovered rows.now column (L.last_of table.now)
        (flat_map (λ v. v.items) links.now.items) (flat_map (λ v. v.items) spilled.now.items) }
    ensures { IfOk result (λ c. ChainsAll rows.now column (L.last_of table.now) c) }
{
    let mut chains = Chains::new(alloc, rows.count())?;
    link_rows(&mut chains, links);
    for list in spilled {
        match add_rows(&mut chains, alloc, table, rows, column, list.as_slice()) {
            Ok(()) => {}
            Err(lack) => return Err(lack),
        }
    }
    Ok(chains)
}
