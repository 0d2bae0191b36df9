//! The law of the plan with a shared table: what the groups that participants put into the table, and those that they
//! left, come to, no matter which participant drew a block and in which order the calls came.
//!
//! It speaks only of plain lists and histories. A group of a batch stands for those rows of the batch that have its
//! key; what a key of the table has at last is all that it was called with, combined; and aggregates do not depend on
//! the order of rows.

#![tactic(auto)]

ghost use Rattle.agg_law.specs.Law.{TableGathers};

/// If each block was drawn once, each group of a batch of rows was put into the table or left, and the leader has added what
/// was left and then the table's entries to its map, no row is refused and the map is that of one pass over all rows. A
/// law: it does nothing when it runs.
pub fn table_gathers()
    ensures { TableGathers }
{}
