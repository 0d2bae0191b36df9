//! Callers of the crates from rows to groups and their text: partial aggregates, tuples, and texts of tables. A module
//! for each crate. No other crate depends on it.

#![tactic(auto)]

#[cfg(test)]
mod partials;
#[cfg(test)]
mod texts;
#[cfg(test)]
mod tuples;
