//! The law by which a table may be made in ranges: the function does nothing and proves it.

ghost use Rattle.state_range.specs.Ranges.{RangesAnswer};

/// The texts of the ranges between some keys, which rise, are one after another the text that answers the query.
pub fn ranges_answer()
    ensures { RangesAnswer }
{}
