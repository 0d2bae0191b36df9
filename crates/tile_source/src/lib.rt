//! A tile of a large file as a source: the text of the header, and then the bytes of the file from a seam on up to the first
//! seam at or after a place.
//!
//! A seam lies in front of the end of a line that is not between quotes: there a table can be cut (`row_windows`). Whether a
//! byte in the middle of a file lies between quotes depends on all bytes before it, so the beginning of a tile is a guess: the
//! first end of a line at or after the place that was asked for, as if that place were outside quotes. The guess is never
//! trusted. A tile says where it begins, and its end is a seam as a scan from its own beginning finds it. So if tiles touch,
//! from the front of the file to its end, each of them began at a seam: the first one did, and each other one begins where the
//! one before it ends. A wrong guess shows as bytes that two tiles have, or none.
//!
//! A [`TileSource`] reads what is below it only once, in the caller's buffer, and keeps nothing but the header and the few bytes
//! that were read with it.

#![tactic(auto)]

mod ahead;
mod bytes;
mod cut;
mod header;
mod mask;
mod open;
mod scan;
mod source;
mod tile;

pub use header::NoTile;
pub use open::{Begin, Span};
pub use source::TileSource;
