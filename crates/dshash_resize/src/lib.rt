//! The growing of a partition of the shared hash table (dshash.c, resize): its items go to a larger bucket slice.

#![tactic(auto)]

mod moving;

pub use moving::move_partition;
