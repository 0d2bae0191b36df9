//! A table of 64-bit numbers under byte strings, for one caller: a shared hash table (`dshash_parts`) whose keys are
//! packed strings and whose cells are numbers.
//!
//! Since there is no other caller, what the pass has seen is only its own calls. So the table is a map, and each call
//! is a step of it (`specs/Maps.antt`): nobody's turn comes between.

#![tactic(auto)]

mod number;
mod table;

pub use number::{Number, NumberCall};
pub use table::{MOST_KEY_BYTES, NumberTable, Total};
