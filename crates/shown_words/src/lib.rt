//! The options of a command line of `parstream` that are no words of a query. They say how a table is shown: `--order COLUMN`,
//! with `:numeric`, `:asc` and `:desc` after it, `--limit N`, and `--output FORM`; how many refused rows may be left out: `--skip-bad N`;
//! or that the input has no header: `--no-header`. They are taken off the words, and what is left is the query. An option is a word and its value the next one, or both are one word
//! with an equals sign between them; `--no-header` takes no value.

#![tactic(auto)]

mod asked;
mod columns;
mod taken;
mod wrong;

pub use asked::{Asked, OrderBy, Wrong, asked_of};
pub use columns::{Column, column_of, keys_of};
pub use taken::{Name, Taken, take_options};
pub use wrong::{column_text, wrong_text};
