//! What a call may do with a chunk that stays under its key.

ghost use Rattle.std.specs.Prelude.{◌≡◌, ℕ, List};
ghost use Rattle.dshash_chunks.specs.Held.{contents};

use region_words::{Chunk, Region};

/// The steps of the chunks of a table. A step reads and changes the words of one chunk, whose place and length stay.
///
/// A partition crosses threads, and may be under a lock, if `W: ChunkObject + Send`, `W::Call: Send` and
/// `W::Reply: Send`: a caller that keeps it there asks for these three.
pub trait ChunkObject {
    ghost use Rattle.dshash_chunks.specs.declared.held.ChunkCalls.{ChunkCalls};

    /// What a caller asks of a chunk.
    type Call: Copy;

    /// What it is answered.
    type Reply: Drop;

    // what a step makes of a chunk's words, and its reply
    ghost worked: { List ℕ → Self.Call → List ℕ × Self.Reply };

    // which call of which key the caller of a number may make: keys may be left to callers as their own
    ghost may: { ℕ → List ℕ → ChunkCalls Self.Call → Type 0 } = { λ caller key call. Unit {0} };

    /// Takes the step. It runs while the lock of the key's partition is held, so it should be short.
    fn work(r: &Region, chunk: &mut Chunk, call: &Self::Call) -> Self::Reply
        requires here { chunk.old.part.region ≡ r.now }
        ensures here { chunk.new.part.region ≡ chunk.old.part.region }
        ensures place { (chunk.new.at ≡ chunk.old.at) × (chunk.new.bytes ≡ chunk.old.bytes) }
        ensures words { contents chunk.new ≡ (worked (contents chunk.old) call.now).0 }
        ensures reply { result ≡ (worked (contents chunk.old) call.now).1 };
}
