//! Callers of the crates from bytes to rows and back: records, windows, keys, plans and their descriptors, the slow
//! model, and the lines on the error stream. A module for each crate. No other crate depends on it.

#![tactic(auto)]

#[cfg(test)]
mod answers;
#[cfg(test)]
mod descriptors;
#[cfg(test)]
mod keys;
#[cfg(test)]
mod plans;
#[cfg(test)]
mod readings;
#[cfg(test)]
mod records;
#[cfg(test)]
mod slow;
#[cfg(test)]
mod windows;
