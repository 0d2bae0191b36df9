//! A plan, as the words of a command line name it, and its columns in a header.
//!
//! [`Plan::of_words`] reads the words as a command line of six options, each of which has its own grammar, and
//! [`Plan::of_merge_words`] reads `merge COLUMNS N`; [`Plan::bind`] looks a plan's names up in the first record of a
//! store. A plan keeps its names in the order in which they are counted: those to group by, those of the aggregates,
//! those of the filters. [`number`] and [`column`] read a number and a name for other command lines.

#![tactic(auto)]

mod bind;
mod grammar;
mod merging;
mod options;
mod plan;
mod read;

pub use bind::{NoColumn, column};
pub use grammar::{MOST_NUMBER, number};
pub use merging::is_merge;
pub use plan::{MOST_AREA_PAGES, MOST_WORKERS, Plan, PlanAnswer};
