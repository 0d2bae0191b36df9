//! Groups in a file of partial states: keys with what some rows came to, as bytes and back.

#![tactic(auto)]

mod group;
mod slot;

pub use group::{push_group, push_values, read_group};
pub use slot::{push_slot, read_slot};
