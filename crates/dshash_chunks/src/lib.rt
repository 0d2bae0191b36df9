//! A partition of the shared hash table whose entries own memory: under each key is a chunk of a region.
//!
//! The map keeps of a chunk its place and its length (`name`); the words of all chunks under its keys are in one part
//! beside it, from which a chunk is cut off and to which one is joined (`store`). What a step may do with a chunk that
//! stays under its key is the user's (`object`). The partition puts these together, and shows one map, from keys to
//! chunks with what is in them (`partition`): `IsStoring` of specs/Stored is its invariant.

#![tactic(auto)]

mod held;
mod name;
mod object;
mod outcome;
mod partition;
mod store;

pub use held::{ChunkCalls, ChunkReplies, Held};
pub use name::{ChunkName, NameCall, Names};
pub use object::ChunkObject;
pub use outcome::{PutOut, TakenChunk, TookOut};
pub use partition::ChunkPartition;
