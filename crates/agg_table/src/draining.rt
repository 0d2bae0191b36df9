//! The entries of a closed table go into a map of groups, each once.

ghost use Rattle.std.specs.Prelude.{◌≡◌, ◌≤◌, ℕ, All, List, OnOk, length};
ghost use Rattle.dshash_core.specs.Key.{IsPackedKey, packed_key};
ghost use Rattle.dshash_core.specs.Listing.{pairs_of};
ghost use Rattle.dshash_parts.specs.Ending.{IsOf, left_of, whole_of};
ghost use Rattle.rel_pointer.specs.Bytes.{AllBytes};
ghost use Rattle.agg_table.specs.Calls.{Group};
ghost use Rattle.agg_table.specs.Drained.{AddsCells, AddsEntries, AddsTable, ArePacked, HoldsAll};

use crate::part::HashPart;
use agg_cell::AggObject;
use dshash_core::{Entry, Partition, unpack_key};
use dshash_parts::ClosedTable;
use par_model::LONGEST_KEY;
use partial_agg::{GroupKey, GroupMap};
use region_words::Region;
use std::alloc::{AllocError, Global};

/// The key of a group, from its words.
fn group_key(words: &[u64]) -> GroupKey
    requires { IsPackedKey words.now }
    ensures bytes { AllBytes result }
    ensures short { length result ≤ LONGEST_KEY }
    ensures packs { words.now ≡ packed_key result }
{
    let mut bytes = [0; LONGEST_KEY];
    let count = unpack_key(words, &mut bytes);
    match GroupKey::of(&bytes[..count]) {
        Some(key) => key,
        None => unreachable!(),
    }
}

/// Adds entries to the map.
fn add_entries(entries: &[Entry<AggObject>], groups: &mut GroupMap) -> Result<(), AllocError>
    requires { All (λ e. IsPackedKey e.key) entries.now }
    ensures { OnOk result (AddsEntries (pairs_of entries.now) groups.old groups.new) }
{
    for entry in entries {
        groups.add(group_key(entry.key.words()), &entry.state)?;
    }
    Ok(())
}

/// Adds the entries of a partition to the map.
fn add_partition(
    alloc: Global,
    r: &Region,
    partition: &mut Partition<AggObject>,
    groups: &mut GroupMap,
) -> Result<(), AllocError>
    requires here { partition.old.region ≡ r.now }
    requires packed { ArePacked partition.old.cells }
    ensures { OnOk result (AddsCells partition.old.cells groups.old groups.new) }
{
    let entries = partition.list(alloc, r)?;
    add_entries(entries.as_slice(), groups)
}

/// Adds the entries of a closed table to a map of groups, each once. It takes the partitions from the last to the
/// first, lists each, which takes memory for its entries, and looks up the map once for an entry. If there was no
/// memory, some of the entries were added, and the map is then only dropped.
pub fn drain(
    alloc: Global,
    r: &Region,
    table: &mut ClosedTable<AggObject>,
    groups: &mut GroupMap,
) -> Result<(), AllocError>
    requires part { (part : HashPart) × IsOf r.now part.table table.old }
    requires whole { left_of table.old ≡ 128 }
    requires held { (puts : List (List Group)) × HoldsAll (whole_of table.old) puts }
    ensures added { OnOk result (AddsTable (whole_of table.old) groups.old groups.new) }
    ensures left { OnOk result (left_of table.new ≡ 0) }
    ensures history { (i : ℕ) → whole_of table.new i ≡ whole_of table.old i }
{
    while let Some(mut partition) = table.take_last() {
        add_partition(alloc, r, &mut partition, groups)?;
    }
    Ok(())
}
