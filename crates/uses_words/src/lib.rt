//! Callers of the small crates whose values are a few words or bytes: places in a region, size classes, blocks drawn by
//! threads, messages of an error queue, sources and sinks, and lines of a shell. A module for each crate.

#![tactic(auto)]

#[cfg(test)]
mod causes;
#[cfg(test)]
mod claims;
#[cfg(test)]
mod classes;
#[cfg(test)]
mod lines;
#[cfg(test)]
mod pointers;
#[cfg(test)]
mod streams;
