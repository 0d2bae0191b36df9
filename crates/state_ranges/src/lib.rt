//! The groups of files in ranges of keys, each range in a map of its own, so that threads can work on all ranges side by side.

#![tactic(auto)]

mod cuts;
mod maps;
mod sums;

pub use cuts::cuts_of;
pub use maps::{RangeMap, keep_in_threads, ranges_between};
pub use sums::RangeSums;
