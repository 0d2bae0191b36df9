//! The entries of all partitions, found by their keys.

ghost use Rattle.std.specs.Prelude.{◌≡◌, ◌<◌, All, IfOk, Some, length, slice_get};
ghost use Rattle.std.specs.FinMap as fin;
ghost use Rattle.dshash_core.specs.Cells.{partition_of};
ghost use Rattle.dshash_core.specs.Key.{hash_of};
ghost use Rattle.dshash_core.specs.Listing.{pairs_of};
ghost use Rattle.frozen_table.specs.Parts.{AreListed, ListMaps, map_in};

use crate::index::Index;
use dshash_core::{CellObject, Entry, PARTITIONS, Partition, hash_key, partition_of_hash};
use region_words::Region;
use std::alloc::{AllocError, Global};
use std::marker::Model;

/// What a frozen table lends for look-ups. Threads share it by reference if they may share states. Contracts see the
/// entries of each partition, in order of the partitions' numbers.
#[derive(Drop)]
pub struct Lookup<O: CellObject> {
    indexes: Vec<Index<O>>,
}

impl<O: CellObject> Model for Lookup<O> {
    ghost use Rattle.std.specs.Prelude.{ℕ, List};
    ghost use Rattle.std.specs.Coded.{coded×, coded_ℕ, coded_list};

    ghost Value = { List (List (List ℕ × O.State)) };

    ghost coded = { coded_list (coded_list (coded× (coded_list coded_ℕ) O.State.code)) };

    ghost view = { λ l. l.indexes.items };

    ghost use Rattle.frozen_table.specs.Parts.{ListMaps, map_in};

    ghost invariant = { λ l. ListMaps (map_in l.indexes.items) l.indexes.items };
}

impl<O: CellObject> Lookup<O> {
    /// Lists each partition once, and makes an index of its entries.
    pub(crate) fn of(
        alloc: Global,
        r: &Region,
        partitions: &mut Vec<Partition<O>>,
    ) -> Result<Lookup<O>, AllocError>
        requires here { All (λ p. p.region ≡ r.now) partitions.old.items }
        requires count { length partitions.old.items ≡ 128 }
        ensures same { partitions.new.items ≡ partitions.old.items }
        ensures listed { IfOk result (AreListed partitions.old.items) }
    {
        let mut indexes = Vec::with_capacity(alloc, PARTITIONS as usize)?;
        for at in 0..PARTITIONS as usize {
            let entries = partitions[at].list(alloc, r)?;
            indexes.push(Index::of(alloc, entries)?)?;
        }
        Ok(Lookup { indexes })
    }

    /// The state under a key, if it has one: the key is hashed once, and compared with the keys of its slot.
    pub fn get(&self, key: &[u64]) -> Option<O::State>
        ensures is { result ≡ fin.get (map_in self.now (partition_of (hash_of key.now))) key.now }
        ensures maps { (maps : _) → ListMaps maps self.now → result ≡ fin.get (maps (partition_of (hash_of key.now))) key.now }
    {
        let hash = hash_key(key);
        self.indexes[partition_of_hash(hash) as usize].find(hash, key)
    }

    /// All entries of a partition, in no stated order.
    pub fn entries(&self, partition: u32) -> &[Entry<O>]
        requires { partition < 128 }
        ensures { slice_get self.now partition ≡ Some (pairs_of result.now) }
    {
        self.indexes[partition as usize].entries()
    }
}
