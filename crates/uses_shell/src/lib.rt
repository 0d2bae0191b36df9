//! Callers of the shell `parsh`: scripts, and what is answered to each line. No other crate depends on it.

#![tactic(auto)]

#[cfg(test)]
mod scripts;
