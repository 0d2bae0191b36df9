//! What the covers of all files say together: that they have each byte of each source once, and which row is the first refused one.

#![tactic(auto)]

mod total;

pub use total::{FirstRefused, TotalFault, first_refused, whole_cover};
