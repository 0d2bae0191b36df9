//! Several files of partial states put together: what they have to say alike, their groups in one map, their covers as one.

#![tactic(auto)]

mod adding;
mod alike;
mod files;
mod rows;

pub use adding::{GroupFault, Kept, Shape};
pub use alike::{OtherFile, check_range, check_whole};
pub use files::{FileFault, Sum, read_groups};
