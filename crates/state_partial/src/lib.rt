//! What the rows of one source come to, as a file of partial states: `parstream partial [--source I/N]
//! [--bytes FROM[-TO] --size S] PLAN < PART > STATES`.
//!
//! A part of one large file is a tile of it (`tile_source`): `FROM` and `TO` are where it is to begin and to end, the file of states says
//! where it did.
//!
//! The source is read to its end before anything is written. A refused row is told by the file, and is no failure: the status is that of a
//! file that was written.

#![tactic(auto)]

mod drain;
mod file;
mod fits;
mod groups;
mod law;
mod no_part;
mod partial;
mod places;
mod reading;
mod words;

pub use law::part_is_made;
pub use no_part::{NoPart, Untaken, WRITTEN};
pub use partial::{part_words, partial_states};
