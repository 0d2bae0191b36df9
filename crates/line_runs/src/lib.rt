//! The text of a table whose groups lie in many maps, no group in two of them: the maps of the parts of the keys.
//!
//! The lines are made map by map, while the map is near: a run has the lines of one map in the order of the table, each after
//! its key ([`Run`]). Then the order is cut into ranges by a sample of the keys. The lines of a range are a stretch of each
//! run; they are put in order by numbers of their keys, and copied. So each group is read once where it lies, and each line
//! is copied once.

#![tactic(auto)]

mod order;
mod ranges;
mod run;
mod sorted;
mod texts;

pub use run::Run;
pub use sorted::sorted_runs;
pub use texts::table_of_parts;
