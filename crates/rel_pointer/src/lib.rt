//! Places in a region, which are valid wherever the region is mapped, and the packing of bytes into its words.

#![tactic(auto)]

mod bytes;
mod pointer;

pub use bytes::{pack, unpack, words_of};
pub use pointer::RelPtr;
