//! A table of contents at the start of a segment: keys, and the place of each.
//!
//! The table is a header of four words (magic, total bytes, bytes given out as chunks, number of entries) and two words
//! for each entry (key, place). Entries grow forward after the header; chunks are given backward from the end; no chunk
//! is freed. While the table grows it is a `Toc`, and only its holder may change the header and the entries.
//! `Toc::freeze` makes a `FrozenToc` of it, which may be shared: from then on nobody changes a word of it, nor a word
//! of a chunk that it kept. `specs/Table.antt` says what the words mean (`table_of`), and `IsTable` what holds of them
//! at each time.

#![tactic(auto)]

mod frozen;
mod growing;
mod room;
mod table;

pub use frozen::{FrozenToc, WrongMagic};
pub use room::{estimate, serves_in_any_order};
pub use table::{Toc, TocAnswer};
