//! Callers of `input_hints`: what it says of command lines and of inputs, as tables of worked rows.

#![tactic(auto)]

#[cfg(test)]
mod hints;
