//! Finite maps from word numbers to values. Contracts see the words of a token as such a map.
//!
//! There is nothing to run here. `specs/WordMap.antt` has the maps and how they are cut and put together, and
//! `proofs/Maps.antt` what they answer: the ruleset `answers` closes most goals about words, as `grind (arith,
//! nat_tests, answers)`.

#![tactic(auto)]

mod laws;

pub use laws::{cut_and_joined, joined_and_cut};
