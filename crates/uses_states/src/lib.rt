//! Callers of the crates of the files of states: worked bytes of each part of a file. A module for
//! each crate. No other crate depends on it.

#![tactic(auto)]

#[cfg(test)]
mod blocks;
#[cfg(test)]
mod covers;
#[cfg(test)]
mod files;
#[cfg(test)]
mod fronts;
#[cfg(test)]
mod groups;
#[cfg(test)]
mod heads;
#[cfg(test)]
mod lanes;
#[cfg(test)]
mod orders;
#[cfg(test)]
mod parts;
#[cfg(test)]
mod ranges;
