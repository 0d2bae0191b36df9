//! What a locked partition is asked, and what it answers.

use crate::key::Key;
use dshash_core::{CellObject, CoreOut, Entry, Taken};
use region_words::Chunk;
use std::alloc::{AllocError, Global};

/// A turn at a partition.
#[derive(Drop)]
pub enum TableAsk<O: CellObject> {
    /// A call of a key, whose hash with the table's seed goes with it, with a spare item or without.
    Make(u32, Key, O::Call, Option<Chunk>),
    /// The same, unless it would hang the key into a chain that has this many items already.
    MakeWithin(u32, u32, Key, O::Call, Option<Chunk>),
    /// A look at the size and the number of keys.
    Look,
    /// A move to this size, on this slice.
    Grow(u32, Chunk),
    /// A listing, with memory for the entries.
    List(Global),
    /// A call that removes whatever is there, of whichever key comes next, with memory for the key's words.
    Take(O::Call, Vec<u64>),
}

/// What a partition answers.
#[derive(Drop)]
pub enum TableAnswer<O: CellObject> {
    /// What became of the call.
    Came(CoreOut<O>),
    /// With hashes of this seed, the key's chain has this many items: the spare item.
    Long(u64, u32, Option<Chunk>),
    /// The size, and the number of keys.
    Size(u32, u64),
    /// The slice that is left over: the former one, or the new one if the partition has that size already.
    LeftOver(Chunk),
    /// The entries.
    Entries(Result<Vec<Entry<O>>, AllocError>),
    /// The key that was taken out, and what the call replied. If there is no key, the size and the number come.
    Took(Taken<O>),
}
