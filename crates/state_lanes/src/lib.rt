//! The lanes of a plan: which slots of its states a file of partial states has, each once.

#![tactic(auto)]

mod lanes;
mod laws;
mod slots;

pub use lanes::{Lane, kinds_of, lanes_of};
pub use laws::{lanes_come_back, rows_are_told};
pub use slots::{item_slots, lane_slots};
