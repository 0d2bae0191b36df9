//! Which bytes of which source the files of all parts are of: that no byte is had twice, and which are had by none.

#![tactic(auto)]

mod joining;
mod missing;

pub use joining::{CoverFault, join_cover};
pub use missing::{Missing, missing_bytes};
