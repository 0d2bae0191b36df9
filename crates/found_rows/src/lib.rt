//! The records of a text as they are found, with no store between the text and its reader.
//!
//! [`FoundRows`] goes from record to record. It looks at 64 bytes at a time: one mask has a bit for each of them that is a
//! comma or a line feed, and another for each quote. A field that begins with no quote ends at the first bit of the one mask
//! from its start on; in a field that does, the other mask leads to the quote that closes it. A record is given as the places
//! of its fields in the text. A field is copied only if two quotes in it stand for one, or if it goes on after the quote that
//! closes it, or if no quote does.
//!
//! A scan is the cursor of its rows (`RowCursor` of `partial_agg`), so a map adds its records and a buffer reads one of them
//! in their places.

#![tactic(auto)]

mod block;
mod cursor;
mod found;
mod masks;
mod spans;
mod written;

pub use found::{Found, FoundRows};
pub use spans::MOST_FIELDS;
