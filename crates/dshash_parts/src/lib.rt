//! The shared hash table (dshash.c): 128 partitions, each with its own lock, with items and bucket slices from a shared
//! area.
//!
//! A key belongs to the partition of its hash's top 7 bits. A call is made under that partition's lock. If it lacks an
//! item, or the partition has to grow first, it gives up the lock, gets what is lacking from the area, and begins
//! again; each turn at a lock is a separate event in the history of that partition (`specs/Legal.antt`). So the calls
//! of a key are, in one history, those of one cell, while partitions move between any two of them (`laws`).
//!
//! `numbered` is the locked value, `turns` one event at it, `requests` one request to the area; `growing`, `calls`,
//! `finding` and `taking` put these together. `within` has the calls that bound the chains, `trying` the turns that will
//! not wait, and `several` the turns of several calls. `open` and `close` are how a table begins and ends, `origin` is
//! how clauses know its area, and `listing` lists its entries.

#![tactic(auto)]

mod asks;
mod calls;
mod close;
mod finding;
mod growing;
mod histories;
mod key;
mod laws;
mod listing;
mod numbered;
mod open;
mod origin;
mod requests;
mod several;
mod table;
mod taking;
mod trying;
mod turns;
mod visiting;
mod within;

pub use asks::{TableAnswer, TableAsk};
pub use close::ClosedTable;
pub use histories::{PartitionCalls, PartitionName, PartitionReplies, PartitionStates};
pub use key::{Key, MOST_KEY_WORDS};
pub use laws::{
    callers_make_all, cells_fold, keys_are_cells, owners_have_cells, sizes_grow, stays_roomy,
};
pub use numbered::Numbered;
pub use open::{DsNew, cut_slices};
pub use several::DsTurn;
pub use table::{DsPass, Dshash};
pub use trying::Busy;
pub use within::NoRoom;
