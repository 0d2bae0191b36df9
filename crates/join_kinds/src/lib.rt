//! The other kinds of join, made from the pairs of the inner one: the semi and the anti join of either side, and the
//! left, the right and the full outer join.
//!
//! `hash_join` gives all pairs of rows, by their numbers, in order. What the other kinds need besides is which rows have
//! a pair and which have none, and that is a flag for each row, set in one pass over the pairs, as PostgreSQL's executor
//! marks the tuples of its hash table that found a match (nodeHashjoin.c). A left outer join needs no flags: the pairs
//! are in order of the left row, so one pass over the left rows and the pairs merges them (`specs/Kinds.antt` has the
//! definitions, over two tables).

#![tactic(auto)]

mod laws;
mod outer;
mod partners;

pub use laws::joins_of_small_tables;
pub use outer::{JoinedRow, full_join, left_outer_join, right_outer_join};
pub use partners::{Side, anti_join, semi_join};
