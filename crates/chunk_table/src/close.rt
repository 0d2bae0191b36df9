//! Passes meet, and a table ends: all passes come home, and its partitions with them.

ghost use Rattle.std.specs.Prelude.{◌≡◌, ℕ, ◌+◌, ◌<◌, ◌↔◌, IfSome, IsNone};
ghost use Rattle.lock_book.specs.Shown.{Met, number_of, seen_of};
ghost use Rattle.dshash_chunks.specs.Held.{stepped};
ghost use Rattle.dshash_parts.specs.Legal.{AreAllowed};
ghost use Rattle.chunk_table.specs.Tables.{IsTable, Belongs, AreAll};
ghost use Rattle.chunk_table.specs.Ending.{Ended, IsOf, IsAt, left_of, whole_of};

use crate::locked::Locked;
use crate::table::{ChunkPass, ChunkTable};
use dshash_chunks::{ChunkObject, ChunkPartition};
use lock_book::{Closed, Kept};

/// A table that was closed. It shows the whole history of each partition, and gives the partitions from the last to the
/// first: `ChunkPartition::take_any` gives the chunks of each, one after another until none is left.
#[derive(Drop)]
pub struct ClosedChunks<W: ChunkObject + Send>
where
    Locked<W>: Kept,
    W::Call: Send,
    W::Reply: Send,
{
    pub(crate) shelf: Closed<Locked<W>>,
}

impl<W: ChunkObject + Send> ChunkTable<W>
where
    W::Call: Send,
    W::Reply: Send,
{
    /// Afterwards both passes have seen, of each partition, the longer of the two histories that they had seen. It
    /// waits for nobody and takes no memory.
    pub fn meet(&self, one: &mut ChunkPass<W>, other: &mut ChunkPass<W>)
        requires own { Belongs self.now one.old }
        requires other { Belongs self.now other.old }
        ensures own { Belongs self.now one.new }
        ensures other { Belongs self.now other.new }
        ensures caller { number_of one.new ≡ number_of one.old }
        ensures other_caller { number_of other.new ≡ number_of other.old }
        ensures this { Met one.old other.old one.new }
        ensures that { Met other.old one.old other.new }
        ensures alike { (i : ℕ) → seen_of one.new i ≡ seen_of other.new i }
    {
        one.meet(&self.shelf, other);
    }

    /// Ends the table. It takes all passes, in order of their numbers, makes a few loads for each, and takes no memory.
    pub fn close(self, passes: Vec<ChunkPass<W>>) -> ClosedChunks<W>
        requires table { (region : _) × IsTable region self }
        requires all { AreAll self passes.items }
        ensures left { left_of result ≡ 128 }
        ensures parts { (region : _) → IsTable region self → IsOf region self result }
        ensures ended { Ended (stepped W.worked) self passes.items result }
        ensures allowed { (i : ℕ) → i < 128 → AreAllowed W.may (whole_of result i) }
    {
        let ChunkTable {
            seed: _,
            key_words: _,
            item_bytes: _,
            shelf,
        } = self;
        ClosedChunks {
            shelf: shelf.close(passes),
        }
    }
}

impl<W: ChunkObject + Send> ClosedChunks<W>
where
    W::Call: Send,
    W::Reply: Send,
{
    /// The last partition that is left, with its slice, its items and the chunks under its keys. None if none is left.
    pub fn take_last(&mut self) -> Option<ChunkPartition<W>>
        ensures none { IsNone result ↔ (left_of self.old ≡ 0) }
        ensures some { IfSome result (λ _. left_of self.old ≡ left_of self.new + 1) }
        ensures end { left_of self.old ≡ 0 → left_of self.new ≡ 0 }
        ensures last { IfSome result (λ p. (region : _) (t : _) → IsOf region t self.old → IsAt region t (left_of self.new) (whole_of self.old (left_of self.new)) p) }
        ensures parts { (region : _) (t : _) → IsOf region t self.old → IsOf region t self.new }
        ensures history { (i : ℕ) → whole_of self.new i ≡ whole_of self.old i }
    {
        let Locked {
            number: _,
            partition,
        } = self.shelf.take_last()?;
        Some(partition)
    }
}
