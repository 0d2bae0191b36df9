//! A block of a file of partial states: some groups, one after another.

#![tactic(auto)]

mod block;

pub use block::{read_block, read_first, split_block};
