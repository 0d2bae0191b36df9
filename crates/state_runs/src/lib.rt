//! All groups as a file of partial states, where they lie in many maps of which no two have a key: each map's tuples are made in a thread.

#![tactic(auto)]

mod all;
mod runs;
mod saving;

pub use all::{AllGroups, push_all};
