//! The law by which lines may be left out.

ghost use Rattle.good_rows.specs.Lines.{LeavesGoodRows};

/// If the lines with a refused row are left out, the records of what is left are the other rows. A law: it does nothing when
/// it runs.
pub fn good_rows_are_left()
    ensures { LeavesGoodRows }
{}
