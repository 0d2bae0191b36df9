//! The law by which a table may be read in parts.

ghost use Rattle.row_windows.specs.Seams.{RecordsAddUp};

/// Where a text is cut at a seam, its records are those of the front and then those of the back. A law: it does nothing
/// when it runs.
pub fn records_add_up()
    ensures { RecordsAddUp }
{}
