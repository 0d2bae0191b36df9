//! The table and its passes.
//!
//! The words of a table change hands by tokens: those of a partition's slice and items are the partition's, which is
//! under a lock, and a chunk that is on its way between a partition and the area is its caller's. `IsTable` of
//! `specs/Tables.antt` says how the shelf of the partitions opened.

use crate::numbered::Numbered;
use crate::origin::Origin;
use dsa_area::Area;
use dshash_core::CellObject;
use lock_book::{Pass, Shelf};

/// A hash table that many callers use at once. Threads share it by reference.
#[derive(Drop)]
pub struct Dshash<O: CellObject + Send>
where
    O::State: Send,
    O::Call: Send,
    O::Reply: Send,
{
    /// The seed of the hashes that say a key's bucket.
    pub(crate) seed: u64,
    /// The words of a key.
    pub(crate) key_words: u32,
    /// The bytes that are asked of the area for an item.
    pub(crate) item_bytes: u64,
    /// The 128 partitions, in order of their numbers.
    pub(crate) shelf: Shelf<Numbered<O>>,
    /// The area that it was made with, as clauses see it; none if the caller brought the slices.
    pub(crate) home: Option<Origin<Area>>,
}

/// One caller's token, which may go to another thread. It shows what the caller has seen of each partition, and its own
/// turns there.
pub type DsPass<O> = Pass<Numbered<O>>;
