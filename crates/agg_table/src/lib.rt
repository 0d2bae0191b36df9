//! The shared table of a query's groups, in its own area (the part of nodeAgg.c that PostgreSQL's workers don't share).
//!
//! `HashPart` is what all participants see, and a `HashSeat` is one participant's two passes. A participant puts the
//! groups of its blocks in (`put`), one call of the table each; a group for which the area has no room, or whose
//! chain is too long, is left to it.
//! What a participant did is said by its own calls, which its passes show (`use_of`, and `HasPut` of
//! `specs/Calls.antt`). When all are done, the entries of the closed table are added to a map of groups (`drain`), each
//! once.

#![tactic(auto)]

mod close;
mod draining;
mod opening;
mod part;
mod put;

pub use draining::drain;
pub use opening::{LEAST_PAGES, MOST_PAGES, open, part_words};
pub use part::{HashPart, HashSeat};
