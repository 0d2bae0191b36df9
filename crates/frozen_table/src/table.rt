//! The partitions of a closed table are taken out, and frozen: they get a look-up of their entries. `AreFrozen` of
//! `specs/Parts.antt` is what is always so of the two.

ghost use Rattle.std.specs.Prelude.{◌≡◌, ℕ, All, IfErr, IfOk, OnErr, length};
ghost use Rattle.dshash_parts.specs.Ending.{IsOf, left_of, whole_of};
ghost use Rattle.frozen_table.specs.Parts.{AreParts, HaveMaps, ListMaps};

use crate::lookup::Lookup;
use dshash_core::{CellObject, PARTITIONS, Partition};
use dshash_parts::ClosedTable;
use region_words::Region;
use std::alloc::{AllocError, Global};
use std::marker::Model;

/// Takes all partitions out of a closed table, in order of their numbers. It takes memory for 128 partitions at once; if
/// there is none, nothing has been taken.
pub fn take_all<O: CellObject + Send>(
    alloc: Global,
    table: &mut ClosedTable<O>,
) -> Result<Vec<Partition<O>>, AllocError>
where
    O::State: Send,
    O::Call: Send,
    O::Reply: Send,
    requires whole { left_of table.old ≡ 128 }
    ensures parts { IfOk result (λ v. (region : _) (t : _) → IsOf region t table.old → AreParts region t (whole_of table.old) v.items) }
    ensures history { (i : ℕ) → whole_of table.new i ≡ whole_of table.old i }
    ensures err { OnErr result (table.new ≡ table.old) }
{
    let mut partitions = Vec::with_capacity(alloc, PARTITIONS as usize)?;
    while let Some(partition) = table.take_last() {
        partitions.push_reserved(partition);
    }
    partitions.reverse();
    Ok(partitions)
}

/// A table that has been frozen. It owns the partitions, and lends a [`Lookup`], which threads share; it can't be shared
/// itself, since what owns words of a region may only go from thread to thread. Contracts see its partitions, in order of
/// their numbers.
#[derive(Drop)]
pub struct FrozenTable<O: CellObject> {
    partitions: Vec<Partition<O>>,
    /// The entries of all partitions.
    lookup: Lookup<O>,
}

impl<O: CellObject> Model for FrozenTable<O> {
    ghost use Rattle.std.specs.Prelude.{List};
    ghost use Rattle.std.specs.Coded.{coded_list};
    ghost use Rattle.dshash_core.specs.Cells.{PartitionView, partition_code};
    ghost use Rattle.frozen_table.specs.Parts.{AreFrozen};

    ghost Value = { List (PartitionView O.State) };

    ghost coded = { coded_list (partition_code O.State.code) };

    ghost view = { λ f. f.partitions.items };

    ghost invariant = { λ f. AreFrozen f.partitions.items f.lookup };
}

impl<O: CellObject> FrozenTable<O> {
    /// Freezes partitions: it lists each once, which takes memory for its entries and for the key of each, and links its
    /// entries by the hashes of their keys. Without the memory the partitions come back as they were.
    pub fn freeze(
        alloc: Global,
        r: &Region,
        partitions: Vec<Partition<O>>,
    ) -> Result<FrozenTable<O>, Vec<Partition<O>>>
        requires here { All (λ p. p.region ≡ r.now) partitions.items }
        requires count { length partitions.items ≡ 128 }
        ensures frozen { IfOk result (λ f. f ≡ partitions.items) }
        ensures err { IfErr result (λ back. back.items ≡ partitions.items) }
    {
        let mut partitions = partitions;
        match Lookup::of(alloc, r, &mut partitions) {
            Ok(lookup) => Ok(FrozenTable { partitions, lookup }),
            Err(_) => Err(partitions),
        }
    }

    /// What threads look keys up in, by reference. The table stays frozen as long as it is lent.
    pub fn lookup(&self) -> &Lookup<O>
        ensures { (maps : _) → HaveMaps maps self.now → ListMaps maps result.now }
    {
        &self.lookup
    }

    /// Gives the partitions back, with all their words, in order of their numbers. It takes no memory.
    pub fn thaw(self) -> Vec<Partition<O>>
        ensures { result.items ≡ self }
    {
        let FrozenTable {
            partitions,
            lookup: _,
        } = self;
        partitions
    }
}
