//! All files of an input put together: any number of files of partial states, one after another, that are of one query.

#![tactic(auto)]

mod first;
mod loading;
mod look;

pub use first::add_first;
pub use loading::{LoadCause, LoadFault, add_files};
pub use look::{LookedAt, look_first};
