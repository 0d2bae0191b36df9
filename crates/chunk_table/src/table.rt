//! The table and its passes.
//!
//! The words of a table change hands by tokens: those of a partition's slice, of its items and of the chunks under its
//! keys are the partition's, which is under a lock, and a chunk that is on its way there is its caller's. `IsTable` of
//! `specs/Tables.antt` says how the shelf of the partitions opened.

use crate::locked::Locked;
use dshash_chunks::ChunkObject;
use lock_book::{Pass, Shelf};

/// A hash table of chunks that many callers use at once. Threads share it by reference.
#[derive(Drop)]
pub struct ChunkTable<W: ChunkObject + Send>
where
    W::Call: Send,
    W::Reply: Send,
{
    /// The seed of the hashes that say a key's bucket.
    pub(crate) seed: u64,
    /// The words of a key.
    pub(crate) key_words: u32,
    /// The bytes that are asked of the area for an item.
    pub(crate) item_bytes: u64,
    /// The 128 partitions, in order of their numbers.
    pub(crate) shelf: Shelf<Locked<W>>,
}

/// One caller's token, which may go to another thread. It shows what the caller has seen of each partition, and its own
/// turns there.
pub type ChunkPass<W> = Pass<Locked<W>>;
