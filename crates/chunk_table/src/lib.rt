//! The shared hash table whose entries own memory: under each key is a chunk of the area, and the table has it until it
//! is taken out, or another is put in its place.
//!
//! It is the table of dshash_parts with another value under each of its 128 locks: a partition of dshash_chunks, whose
//! map has a chunk's place and length, and beside it the words of all chunks under its keys. A turn at it is an event of
//! the same kind, in a history of the same kind (`locked`), so what holds of such histories holds here: each key's calls
//! are those of one cell, whose state is the chunk with what is in it.
//!
//! `asks` is what a turn asks and is answered, `turns` one event, `requests` one request to the area; `growing` and
//! `calls` put these together. `taking` takes chunks out of a partition, whichever comes next, and `listing` lists their
//! names; `open` and `close` are how a table begins and ends.

#![tactic(auto)]

mod asks;
mod calls;
mod close;
mod growing;
mod histories;
mod listing;
mod locked;
mod open;
mod requests;
mod table;
mod taking;
mod turns;

pub use asks::{ChunkAnswer, ChunkAsk};
pub use calls::NotPut;
pub use close::ClosedChunks;
pub use histories::ChunkStates;
pub use locked::Locked;
pub use table::{ChunkPass, ChunkTable};
