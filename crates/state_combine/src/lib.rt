//! Several files of partial states as one: their groups, and the cover of all their stretches.

#![tactic(auto)]

mod combining;

pub use combining::{CombineFault, push_combined};
