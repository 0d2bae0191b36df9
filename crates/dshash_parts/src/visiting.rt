//! Visits: calls of a key that change or remove what is there, and make no cell. They need no item, so they ask nothing
//! of the area, are never refused, and are one turn.

ghost use Rattle.std.specs.Prelude.{◌≡◌, ℕ, ◌<◌, false, is_some, length, List, None};
ghost use Rattle.lock_book.specs.Shown.{number_of, seen_of, mine_of};
ghost use Rattle.dshash_core.specs.Key.{hash_of};
ghost use Rattle.dshash_core.specs.Cells.{partition_of};
ghost use Rattle.dshash_parts.specs.Lookups.{IsVisited, MakesNoCell};
ghost use Rattle.dshash_parts.specs.Legal.{AreAllowed};
ghost use Rattle.dshash_parts.specs.Owners.{IsOwner, IsOwnCell};
ghost use Rattle.dshash_parts.specs.Promises.{IsLastCall};
ghost use Rattle.dshash_parts.specs.Replays.{IsOneCell};
ghost use Rattle.dshash_parts.specs.Tables.{IsSpare, IsTable, Turned, key_words_of, Belongs};
ghost use Rattle.dshash_parts.specs.declared.histories.PartitionCalls.TheVariants.{Call};
ghost use Rattle.dshash_parts.specs.declared.histories.PartitionReplies.TheVariants.{Made};

use crate::table::{DsPass, Dshash};
use crate::turns::try_at;
use dshash_core::{CellObject, CoreOut, hash_key, partition_of_hash};
use region_words::{Chunk, Region};
use std::sync::Wait;

impl<O: CellObject + Send> Dshash<O>
where
    O::State: Send,
    O::Call: Send,
    O::Reply: Send,
{
    /// Makes a call of a key that makes no cell. If it takes the key out, the key's item comes with the reply: the caller
    /// keeps it as its spare one (`call_with_spare`) or gives it back (`give_spare`). It may wait for the lock of the key's
    /// partition, and costs one hash, one walk along a chain and one turn. It takes no memory and asks nothing of the
    /// area.
    pub fn visit<R: Wait>(
        &self,
        rt: &R,
        r: &Region,
        pass: &mut DsPass<O>,
        key: &[u64],
        call: &O::Call,
    ) -> (O::Reply, Option<Chunk>)
        requires table { IsTable r.now self.now }
        requires own { Belongs self.now pass.old }
        requires key { length key.now ≡ key_words_of self.now }
        requires may { O.may (number_of pass.old) key.now call.now }
        requires none { MakesNoCell O.stepped call.now }
        ensures own { Belongs self.now pass.new }
        ensures caller { number_of pass.new ≡ number_of pass.old }
        ensures event { Turned O.stepped pass.old pass.new (partition_of (hash_of key.now)) (Call key.now call.now false) (Made result.0 false (is_some result.1)) }
        ensures item { IsSpare r.now self.now result.1 }
        ensures found { IsVisited O.stepped (seen_of pass.new) key.now call.now result.0 (is_some result.1) }
        ensures last { IsLastCall (number_of pass.old) key.now call.now result.0 (seen_of pass.new (partition_of (hash_of key.now))) }
        ensures allowed { (i : ℕ) → i < 128 → AreAllowed O.may (seen_of pass.new i) }
        ensures owned { (k : List ℕ) → IsOwner O.stepped O.may (number_of pass.old) k → IsOwnCell O.stepped (seen_of pass.new) (mine_of pass.new) k }
        ensures cells { (k : List ℕ) → IsOneCell O.stepped (seen_of pass.new) k }
    {
        let hash = hash_key(key);
        let number = partition_of_hash(hash);
        let own = self.own_hash(hash, key);
        match try_at(rt, self, r, pass, number, own, key, call, None) {
            CoreOut::Done { reply, freed, .. } => (reply, freed),
            _ => unreachable!(),
        }
    }
}
