//! What a locked partition is asked, and what it answers.

use dshash_chunks::{ChunkObject, ChunkPartition, Names, PutOut, TakenChunk, TookOut};
use dshash_core::Entry;
use dshash_parts::Key;
use region_words::Chunk;
use std::alloc::{AllocError, Global};
use std::snapshot::Snapshot;

/// A turn at a partition. With a key goes its hash with the table's seed.
#[derive(Drop)]
pub enum ChunkAsk<W: ChunkObject> {
    /// This chunk is put under the key, with a spare item or without.
    Put(u32, Key, Chunk, Option<Chunk>),
    /// The key's chunk is taken out.
    Take(u32, Key),
    /// A step is taken on the key's chunk.
    With(u32, Key, W::Call),
    /// A look at the size and the number of keys.
    Look,
    /// A move to this size, on this slice.
    Grow(u32, Chunk),
    /// A listing, with memory for the entries.
    List(Global),
    /// The chunk of whichever key comes next is taken out, with memory for the key's words.
    Draw(Vec<u64>),
}

/// What a partition answers.
#[derive(Drop)]
pub enum ChunkAnswer<W: ChunkObject> {
    /// What became of the chunk.
    Placed(PutOut),
    /// What was taken out.
    Out(TookOut),
    /// The reply of the step, if there was a chunk.
    Did(Option<W::Reply>),
    /// The size, and the number of keys.
    Size(u32, u64),
    /// The slice that is left over: the former one, or the new one if the partition has that size already.
    LeftOver(Chunk),
    /// The keys with the places and lengths of their chunks, and the partition then, as clauses see it.
    Listed(Result<Vec<Entry<Names>>, AllocError>, Snapshot<ChunkPartition<W>>),
    /// The key that was taken out, with its chunk. If there is no key, the size and the number come.
    Drawn(TakenChunk),
}
