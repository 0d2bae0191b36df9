//! The law by which the lines of a table may be made in parts: the function does nothing and proves it.

ghost use Rattle.result_text.specs.PartTexts.{PartsAnswer};

/// If the groups are shared out by their keys to parts that follow the order of the columns, the lines of the parts one
/// after the other are those of the table.
pub fn parts_answer()
    ensures { PartsAnswer }
{}
