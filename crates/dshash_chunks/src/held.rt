//! What contracts see under a key, and of its calls. These types appear only in the proofs: no value of them is made.

use std::collections::LinkedList;

/// A chunk: its place, its length in bytes, and its words.
pub struct Held {
    pub at: u64,
    pub bytes: u64,
    pub words: LinkedList<u64>,
}

/// A call of a key. `C` are the calls of its object.
pub enum ChunkCalls<C> {
    /// This chunk is put there, whatever was there.
    Put(Held),
    /// The chunk is taken out.
    Take,
    /// The object's step is taken on the chunk, if there is one.
    With(C),
}

/// The reply of a call. `R` are the replies of the object.
pub enum ChunkReplies<R> {
    /// The chunk that was there, if any, which is the caller's now.
    Was(Option<Held>),
    /// The reply of the step, if there was a chunk.
    Did(Option<R>),
}
