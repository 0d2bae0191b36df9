//! The table of all groups by ranges of keys: each range's text is made by a thread, and by a law those texts, one
//! after another, are the text of all groups.

#![tactic(auto)]

mod finishing;

ghost use Rattle.state_tables.specs.Texts.{RangesAreText};

pub use finishing::finish_ranges;

/// Tells that the texts of the ranges between some keys, which rise, are one after another the text of all groups of a
/// map.
pub fn ranges_are_text()
    ensures { RangesAreText }
{}
