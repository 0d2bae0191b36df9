//! Callers of `chunk_table`: chunks whose first word is a number, under keys of one word. The number grows where it is. The
//! crate also has the tests of the crates of the table of chunks. No other crate depends on it.

#![tactic(auto)]

mod growing;
mod keeping;
#[cfg(test)]
mod many;
#[cfg(test)]
mod tests;

pub use growing::Growing;
pub use keeping::{keep, raise};
