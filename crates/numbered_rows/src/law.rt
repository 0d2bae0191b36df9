//! The law by which a table without a header has the numbers of its columns for one.

ghost use Rattle.numbered_rows.specs.Law.{NumbersAreHeader};

/// A table behind its header of numbers has their record, and then its own. A law: it does nothing when it runs.
pub fn numbers_are_header()
    ensures { NumbersAreHeader }
{}
