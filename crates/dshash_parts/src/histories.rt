//! What the history of a partition is made of. These types appear only in the proofs: no value of them is made.

use dshash_core::CellObject;
use region_words::Region;
use std::collections::LinkedList;
use std::marker::{Model, PhantomData};

/// What is fixed of a partition of a table.
pub struct PartitionName {
    pub region: Region,
    /// Its place in the table, from 0 to 127.
    pub number: u32,
    /// The seed of the hashes that say a key's bucket.
    pub seed: u64,
    /// The words of a key.
    pub key_words: u64,
    /// The bytes of an item.
    pub item_bytes: u64,
}

/// The size of a partition, and its map.
pub struct PartitionStates<O: CellObject> {
    object: PhantomData<O>,
}

impl<O: CellObject> Model for PartitionStates<O> {
    ghost use Rattle.dshash_parts.specs.States.{PartitionState, state_code, fresh};

    ghost Value = { PartitionState O.State };

    ghost coded = { state_code O.State.code };

    ghost view = { λ _. fresh };
}

/// A turn at a partition.
pub enum PartitionCalls<C> {
    /// A call of a key, and whether a spare item came with it.
    Call(LinkedList<u64>, C, bool),
    /// A look at the size and the number of keys.
    Looks,
    /// A move to this size.
    Moves(u32),
    /// A listing.
    Lists,
}

/// What a partition replies.
pub enum PartitionReplies<S, R> {
    /// The call was made, with this reply; whether the spare was handed back, and whether an item was freed.
    Made(R, bool, bool),
    /// The call lacks an item.
    LacksItem,
    /// The partition, of this size, has to grow first; whether the spare was handed back.
    HasToGrow(u32, bool),
    /// With hashes of this seed, the key's chain has this many items or more, and the call would hang one more in; whether
    /// the spare was handed back.
    Crowded(u64, u32, bool),
    /// The size, and the number of keys.
    HasSize(u32, u64),
    /// The move was made, or was not needed any more; the bytes of the slice that was left over.
    Moved(u64),
    /// The entries, if there was memory for them.
    Listed(Option<LinkedList<(LinkedList<u64>, S)>>),
}
