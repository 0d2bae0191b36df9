//! A map of groups as a file of partial states: what a part of the rows came to, for a program that has the other parts.

#![tactic(auto)]

mod laws;
mod saving;

pub use laws::{long_is_known, saved_is_read};
pub use saving::{push_file, push_groups};
