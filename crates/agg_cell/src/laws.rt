//! The state under a key after its calls. Each function does nothing and promises a law.

ghost use Rattle.agg_cell.specs.Called.{AddsAtOnce, AnyOrder, CallersMakeAll, CellsCombine, GroupsCombine, PartsCombine};

/// In each legal history of a partition, what a key has at last is all that it was called with, combined.
pub fn cells_combine()
    ensures { CellsCombine }
{}

/// The order of the calls doesn't matter, as long as no count wraps.
pub fn any_order()
    ensures { AnyOrder }
{}

/// States may be combined in two parts, and then the two parts with each other.
pub fn parts_combine()
    ensures { PartsCombine }
{}

/// The aggregates of a key in parts of the rows, each called once and in any order, combine to those of all rows.
pub fn groups_combine()
    ensures { GroupsCombine }
{}

/// The states with which a key was called are those of the calls of all callers, each once.
pub fn callers_make_all()
    ensures { CallersMakeAll }
{}

/// What an entry of a table adds to a map of groups is all that its key was called with, one state after another.
pub fn adds_at_once()
    ensures { AddsAtOnce }
{}
