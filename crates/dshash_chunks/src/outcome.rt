//! What calls of the partition answer.

use dshash_core::KeyWords;
use region_words::Chunk;

/// What became of a chunk that was to be put under a key.
#[derive(Drop)]
pub enum PutOut {
    /// It is there now, and is the partition's. `before` is the chunk that was there, if any, and `unused` the spare
    /// item, if it was not taken.
    Done {
        before: Option<Chunk>,
        unused: Option<Chunk>,
    },
    /// The key is new and no spare item came: nothing has changed, and the chunk is handed back.
    NeedItem(Chunk),
    /// The key is new and the partition, of this size, has to grow first: nothing has changed, and the chunk and the
    /// spare item are handed back.
    TooFull {
        size: u32,
        chunk: Chunk,
        spare: Option<Chunk>,
    },
}

/// What was taken out of a key: its chunk and its item, if it was there.
#[derive(Drop)]
pub struct TookOut {
    pub chunk: Option<Chunk>,
    pub item: Option<Chunk>,
}

/// A key that was taken out, its chunk and its item.
#[derive(Drop)]
pub struct TakenChunk {
    pub key: KeyWords,
    pub chunk: Chunk,
    pub item: Chunk,
}
