//! A table in ranges of keys: the lines of the groups from one key on and before another, so that a table of any number of groups can be
//! made piece by piece. The texts of ranges one after another are the table.

#![tactic(auto)]

mod bounds;
mod laws;
mod text;

pub use bounds::{BoundFault, bound_key};
pub use laws::ranges_answer;
pub use text::text_within;
