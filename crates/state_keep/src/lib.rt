//! The groups of one file in a map of a range of keys: the order of all keys is looked at once, without a map, and then a map takes those
//! groups that lie in its range, so that threads can fill the maps of several ranges from one file side by side.

#![tactic(auto)]

mod check;
mod keep;
mod pass;

pub use check::check_groups;
pub use keep::{KeepFault, keep_blocks};
