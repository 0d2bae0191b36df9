//! Callers of the libraries of `pargather` and `parstream`, over sources and sinks in memory. No other crate depends on
//! it.

#![tactic(auto)]

#[cfg(test)]
mod program;
