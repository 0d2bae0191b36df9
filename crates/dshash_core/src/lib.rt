//! One partition of the shared hash table (dshash.c): a finite map from keys to states, kept in a region's words.
//!
//! A key is a list of words, and byte strings are packed into it; its hash says the partition and the bucket (`key`).
//! Under a key is the state of an object of the user's, which each call takes one step on (`object`). The words of one
//! bucket are a chain of items; moves along it, and stores in it, are on the words of one part (`words`). The buckets
//! of a slice own the words of their chains and show them as lists of items (`buckets`); how many there are, and when
//! there are too few, depends on the partition's size (`sizes`). A call finds its key's item and changes it, takes it
//! out, or hangs a new one in (`calls`), and its answer says what it lacked (`outcome`); or the partition chooses the
//! key that goes (`taking`). A call may be given a bound on its key's chain (`crowding`). A listing walks all chains
//! (`entries`). The partition puts these together, and shows one map (`partition`): `IsPartition` of specs/Cells is its
//! invariant.

#![tactic(auto)]

mod buckets;
mod calls;
mod crowding;
mod entries;
mod key;
mod object;
mod outcome;
mod partition;
mod sizes;
mod taking;
mod words;

pub use buckets::Buckets;
pub use entries::{Entry, KeyWords};
pub use key::{
    MOST_PACKED_BYTES, PACKED_WORDS, hash_key, item_bytes, pack_key, seeded_hash_key, unpack_key,
};
pub use object::{CellObject, MOST_VALUE_WORDS};
pub use outcome::CoreOut;
pub use partition::Partition;
pub use sizes::{PARTITIONS, bucket_count, partition_of_hash};
pub use taking::Taken;
