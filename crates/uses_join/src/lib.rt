//! Callers of the joins, over sources and sinks in memory. A module for each crate. No other crate depends on it.
//! `probing` is a join's two halves by hand, with a table that is frozen in between.

#![tactic(auto)]

#[cfg(test)]
mod hashed;
#[cfg(test)]
mod joins;
mod kinds;
#[cfg(test)]
mod pairs;
#[cfg(test)]
mod probing;

pub use kinds::orphans;
#[cfg(test)]
pub use probing::{freeze_table, last_row};
