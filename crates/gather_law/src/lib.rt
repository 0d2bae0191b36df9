//! The laws of a query's work in parts. Here is the law of gathering: what blocks and tuples come to, no matter which
//! participant drew a block and in which order the tuples came. `sharing` has the laws of rows that are shared out to
//! participants that keep maps, and of keys that are shared out to parts.
//!
//! They are about plain lists and maps only: the numbers that each participant drew, the groups that each worker sent, and the
//! parts that the leader put into its map. A worker sends the groups of batches of its rows, in any order, so a group
//! stands for those rows of a batch that have its key; put in another order, the parts stand for the same rows in
//! another order, and aggregates do not depend on the order of rows.

#![tactic(auto)]

pub mod sharing;

ghost use Rattle.gather_law.specs.Law.{GathersAll, TuplesCombine};

/// Tells that if each block was drawn once and the leader has put its own blocks and all the tuples of the others into
/// its map, no row is refused and the map is that of one pass over all rows. It does nothing.
pub fn gathers_all()
    ensures { GathersAll }
{}

/// Tells that the tuples that a worker sent for some rows combine to the groups of these rows. It does nothing.
pub fn tuples_combine()
    ensures { TuplesCombine }
{}
