//! Callers of the queries in parallel: gathers, merges, and generated rows. A module for each crate. No other crate
//! depends on it.

#![tactic(auto)]

#[cfg(test)]
mod gathers;
#[cfg(test)]
mod generated;
#[cfg(test)]
mod merges;
