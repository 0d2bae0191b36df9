//! Callers of the crates that go through a table of any length, window by window.

#![tactic(auto)]

#[cfg(test)]
mod decimals;
#[cfg(test)]
mod faults;
#[cfg(test)]
mod filters;
#[cfg(test)]
mod left_out;
#[cfg(test)]
mod lines;
#[cfg(test)]
mod separators;
#[cfg(test)]
mod shares;
#[cfg(test)]
mod windows;
