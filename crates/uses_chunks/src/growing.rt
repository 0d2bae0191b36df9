//! What may be done with a chunk under its key: its first number grows.

ghost use Rattle.uses_chunks.specs.Grown.{grown};

use dshash_chunks::ChunkObject;
use region_words::{Chunk, Region};

/// Chunks whose first word is a number that grows, modulo 2^64. The reply is the number that was there, and 0 if the
/// chunk has no word.
pub struct Growing;

impl ChunkObject for Growing {
    type Call = u64;

    type Reply = u64;

    ghost worked = { grown };

    fn work(r: &Region, chunk: &mut Chunk, call: &u64) -> u64 {
        if chunk.bytes < 8 {
            return 0;
        }
        let before = chunk.load(r, 0);
        chunk.store(r, 0, before.wrapping_add(*call));
        before
    }
}
