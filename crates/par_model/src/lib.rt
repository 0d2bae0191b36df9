//! The types that a query is made of, and in `specs/` what each of its answers means.
//!
//! A table is a list of records, a record is a list of fields, a field is a list of bytes. Record 0 is the header, and
//! the rows are numbered from 1. `specs/` says, over such lists and over nothing else, which rows a plan keeps, which
//! rows it refuses, what the aggregates of a group are, and which table is the answer. No definition there speaks of a
//! loop, a map or a thread, so that each way to run a query is measured by the same words.

#![tactic(auto)]

pub mod number;
pub mod plan;
pub mod refusal;
pub mod row;
pub mod state;
pub mod text;

pub use number::{read_integer, read_number};
pub use plan::{BoundPlan, Filter, FilterOp, FilterTest, Item, ItemKind, MOST_PLACES, NO_FILTER};
pub use refusal::{FILTER_CAUSE, ITEM_CAUSE, KEY_CAUSE, LONGEST_KEY, Refusal, WIDTH_CAUSE};
pub use row::{Field, Row};
pub use state::{AggState, NO_VALUES, SlotState};
pub use text::{LONGEST_TEXT, Text};
