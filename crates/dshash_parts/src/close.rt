//! Passes meet, and a table ends: all passes come home, and its partitions with them.

ghost use Rattle.std.specs.Prelude.{◌≡◌, ℕ, ◌+◌, ◌<◌, ◌↔◌, IfSome, IsNone};
ghost use Rattle.lock_book.specs.Shown.{Met, number_of, seen_of};
ghost use Rattle.dshash_parts.specs.Legal.{AreAllowed};
ghost use Rattle.dshash_parts.specs.Tables.{IsTable, Belongs, AreAll};
ghost use Rattle.dshash_parts.specs.Ending.{Ended, IsOf, IsAt, left_of, whole_of};

use crate::numbered::Numbered;
use crate::table::{DsPass, Dshash};
use dshash_core::{CellObject, Partition};
use lock_book::{Closed, Kept};

/// A table that was closed. It shows the whole history of each partition, and gives the partitions from the last to the
/// first.
#[derive(Drop)]
pub struct ClosedTable<O: CellObject + Send>
where
    Numbered<O>: Kept,
    O::State: Send,
    O::Call: Send,
    O::Reply: Send,
{
    pub(crate) shelf: Closed<Numbered<O>>,
}

impl<O: CellObject + Send> Dshash<O>
where
    O::State: Send,
    O::Call: Send,
    O::Reply: Send,
{
    /// Afterwards both passes have seen, of each partition, the longer of the two histories that they had seen. It
    /// waits for nobody and takes no memory.
    pub fn meet(&self, one: &mut DsPass<O>, other: &mut DsPass<O>)
        requires own { Belongs self.now one.old }
        requires other { Belongs self.now other.old }
        ensures own { Belongs self.now one.new }
        ensures other { Belongs self.now other.new }
        ensures caller { number_of one.new ≡ number_of one.old }
        ensures other_caller { number_of other.new ≡ number_of other.old }
        ensures this { Met one.old other.old one.new }
        ensures that { Met other.old one.old other.new }
        ensures alike { (i : ℕ) → seen_of one.new i ≡ seen_of other.new i }
    {
        one.meet(&self.shelf, other);
    }

    /// Ends the table. It takes all passes, in order of their numbers, makes a few loads for each, and takes no memory.
    pub fn close(self, passes: Vec<DsPass<O>>) -> ClosedTable<O>
        requires table { (region : _) × IsTable region self }
        requires all { AreAll self passes.items }
        ensures left { left_of result ≡ 128 }
        ensures parts { (region : _) → IsTable region self → IsOf region self result }
        ensures ended { Ended O.stepped self passes.items result }
        ensures allowed { (i : ℕ) → i < 128 → AreAllowed O.may (whole_of result i) }
    {
        let Dshash {
            seed: _,
            key_words: _,
            home: _,
            item_bytes: _,
            shelf,
        } = self;
        ClosedTable {
            shelf: shelf.close(passes),
        }
    }
}

impl<O: CellObject + Send> ClosedTable<O>
where
    O::State: Send,
    O::Call: Send,
    O::Reply: Send,
{
    /// The last partition that is left, with the words of its slice and items. None if none is left.
    pub fn take_last(&mut self) -> Option<Partition<O>>
        ensures none { IsNone result ↔ (left_of self.old ≡ 0) }
        ensures some { IfSome result (λ _. left_of self.old ≡ left_of self.new + 1) }
        ensures end { left_of self.old ≡ 0 → left_of self.new ≡ 0 }
        ensures last { IfSome result (λ p. (region : _) (t : _) → IsOf region t self.old → IsAt region t (left_of self.new) (whole_of self.old (left_of self.new)) p) }
        ensures parts { (region : _) (t : _) → IsOf region t self.old → IsOf region t self.new }
        ensures history { (i : ℕ) → whole_of self.new i ≡ whole_of self.old i }
    {
        let Numbered {
            number: _,
            partition,
        } = self.shelf.take_last()?;
        Some(partition)
    }
}
