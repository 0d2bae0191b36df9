//! A shared hash table that has been closed and is only read from then on: its partitions with their words, and beside
//! each an index of its entries in plain memory. Nothing changes any more, so any number of threads look keys up by a
//! shared reference to these (`Lookup`), with plain loads, no lock and no pass.
//!
//! A table is built by many callers (`dshash_parts`), closed, and its partitions are taken out (`take_all`). The frozen
//! table owns them while it answers, and gives them back with all their words when it is thawed, each as it was. So no
//! chunk is lost, and an error gives back all that came.
//!
//! `index` finds a key among the entries of one partition, `lookup` has an index for each of them, and `table` puts these
//! next to the partitions.

#![tactic(auto)]

mod index;
mod lookup;
mod table;

pub use lookup::Lookup;
pub use table::{FrozenTable, take_all};
