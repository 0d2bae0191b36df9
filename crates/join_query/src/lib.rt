//! The join of two tables that come one after the other in one input, from the words of a command line to an exit
//! status: `join COLUMN N`, with N workers besides the caller's thread. In their order: the words, the line that parts
//! the tables, their records and columns, the join of the crate `hash_join`, and the writing of the joined records.
//!
//! The causes that there is no table come in one order: the words, the reading and its limit, a second table, the
//! headers, the numbers of rows, the columns, the rows, the pairs, and the writing; the left table comes before the
//! right one (`specs/Outcome.antt`). The first that holds ends it. Only joined records are written to `out`; one place
//! writes the line on `err`, and what becomes of that line changes no status.

#![tactic(auto)]

mod cause;
mod cut;
mod joining;
mod ready;
mod stop;
mod tables;
mod words;
mod writing;

pub use answer_text::{MISUSED, NO_MEMORY, READ_FAULT, REFUSED, TABLE, TOO_LARGE, WRITE_FAULT};
pub use cause::Cause;
pub use cut::find_separator;
pub use hash_join::Joined;
pub use joining::join_tables;
pub use ready::{Ready, prepare};
pub use stop::Stop;
pub use words::{JoinWords, is_join, read_words};
pub use writing::write_joined;
