//! Writes what a file of partial states has after its head: groups one after another, in blocks, and the foot.

#![tactic(auto)]

mod writer;

pub use writer::{BodyWriter, WriteError};
