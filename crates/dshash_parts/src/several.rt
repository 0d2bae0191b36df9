//! Several calls in one turn of a partition.
//!
//! A caller with many calls for keys of one partition, such as a group-by that has sorted its groups by partition, takes
//! the partition's lock once for all of them. Each call is a separate event, and no other caller's comes between
//! two of them. A call that lacks an item, or finds that the partition has to grow, says so and ends nothing: the caller
//! brings a spare item with it, or ends the turn and makes that call by `call`. So no turn waits for the area.

ghost use Rattle.std.specs.Prelude.{◌≡◌, ℕ, ◌<◌, [], List, length, is_some};
ghost use Rattle.std.specs.FinMap as fin;
ghost use Rattle.lock_book.specs.Shown.{IsAway, calls_in, number_in, number_of, place_in, seen_of, mine_of};
ghost use Rattle.dsa_area.specs.Sizes.{chunk_size};
ghost use Rattle.dshash_core.specs.Key.{hash_of};
ghost use Rattle.dshash_core.specs.Cells.{IsRoomy, partition_of};
ghost use Rattle.dshash_core.specs.Outcome.{HandsOut};
ghost use Rattle.dshash_parts.specs.Asked.{outcome_of};
ghost use Rattle.dshash_parts.specs.Legal.{AreAllowed};
ghost use Rattle.dshash_parts.specs.Owners.{IsOwner, IsOwnCell};
ghost use Rattle.dshash_parts.specs.Replays.{IsOneCell};
ghost use Rattle.dshash_parts.specs.Tables.{Belongs, IsSpare, IsTable, item_of, key_words_of, map_at, size_at, state_at};
ghost use Rattle.dshash_parts.specs.Turns.{IsTurn, ToldIn, TurnedAll, TurnedIn, state_in};
ghost use Rattle.dshash_parts.specs.declared.histories.PartitionCalls.TheVariants.{Call};

use crate::asks::{TableAnswer, TableAsk};
use crate::key::Key;
use crate::numbered::Numbered;
use crate::table::{DsPass, Dshash};
use dshash_core::{CellObject, CoreOut, seeded_hash_key};
use lock_book::Turn;
use region_words::{Chunk, Region};
use std::sync::Wait;

/// A turn at a partition, which a pass has taken and not given back yet.
pub type DsTurn<O> = Turn<Numbered<O>>;

impl<O: CellObject + Send> Dshash<O>
where
    O::State: Send,
    O::Call: Send,
    O::Reply: Send,
{
    /// Waits for a turn at a partition. All others that call keys of this partition wait until `end_turn`. The pass is
    /// away until then. It takes no memory and asks nothing of the area.
    pub fn turn<R: Wait>(&self, rt: &R, pass: &mut DsPass<O>, partition: u32) -> DsTurn<O>
        requires table { (region : _) × IsTable region self.now }
        requires own { Belongs self.now pass.old }
        requires number { partition < 128 }
        ensures turn { IsTurn self.now pass.old result }
        ensures place { place_in result ≡ partition }
        ensures none { calls_in result ≡ [] }
        ensures away { IsAway pass.new }
    {
        self.shelf.turn(rt, pass, partition as usize)
    }

    /// Makes a call of a key of the turn's partition, as the next event of the turn. The caller brings a spare item or
    /// none; what is handed out is as for `try_call`. It waits for nobody, and costs one hash and one walk along a
    /// chain. A call that lacks an item or finds the partition full was not made, and says so.
    pub fn call_in(
        &self,
        r: &Region,
        turn: &mut DsTurn<O>,
        key: &[u64],
        call: &O::Call,
        spare: Option<Chunk>,
    ) -> CoreOut<O>
        requires table { IsTable r.now self.now }
        requires turn { (p : _) × IsTurn self.now p turn.old }
        requires key { (length key.now ≡ key_words_of self.now) × (partition_of (hash_of key.now) ≡ place_in turn.old) }
        requires may { O.may (number_in turn.old) key.now call.now }
        requires spare { IsSpare r.now self.now spare }
        ensures turn { (p : _) → IsTurn self.now p turn.old → IsTurn self.now p turn.new }
        ensures event { TurnedIn O.stepped turn.old turn.new (Call key.now call.now (is_some spare)) (outcome_of result) }
        ensures told { ToldIn O.stepped turn.old turn.new key.now call.now result }
        ensures handed { HandsOut r.now (chunk_size (item_of self.now)) spare result }
    {
        let hash = seeded_hash_key(self.seed, key);
        let ask = TableAsk::Make(hash, Key::of(key), *call, spare);
        match turn.call(&self.shelf, r, ask) {
            TableAnswer::Came(out) => out,
            _ => unreachable!(),
        }
    }

    /// Gives the partition back, with all events of the turn in its history, and the pass its seat.
    pub fn end_turn(&self, turn: DsTurn<O>, pass: &mut DsPass<O>)
        requires table { (region : _) × IsTable region self.now }
        requires turn { (p : _) × IsTurn self.now p turn }
        requires away { IsAway pass.old }
        ensures own { Belongs self.now pass.new }
        ensures caller { number_of pass.new ≡ number_in turn }
        ensures turned { (p : _) → IsTurn self.now p turn → TurnedAll O.stepped self.now p pass.new (place_in turn) (calls_in turn) }
        ensures state { state_at (seen_of pass.new) (place_in turn) ≡ state_in turn }
        ensures allowed { (i : ℕ) → i < 128 → AreAllowed O.may (seen_of pass.new i) }
        ensures owned { (k : List ℕ) → IsOwner O.stepped O.may (number_of pass.new) k → IsOwnCell O.stepped (seen_of pass.new) (mine_of pass.new) k }
        ensures cells { (k : List ℕ) → IsOneCell O.stepped (seen_of pass.new) k }
        ensures roomy { (k : ℕ) → k < 128 → IsRoomy (size_at (seen_of pass.new) k) (fin.len (map_at (seen_of pass.new) k)) }
    {
        turn.end(&self.shelf, pass);
    }
}
