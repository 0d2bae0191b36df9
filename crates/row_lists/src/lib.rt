//! Rows on their way from the participant that read them to the one that groups them.
//!
//! A row is carried as what its group needs of it: its key, and the value that each aggregate takes. The rows of one part
//! of the keys lie in one list, one after another as bytes ([`RowList`]), so that a list is written from front to back while
//! its rows are read, and read from front to back while they are grouped. A participant has a list for each part
//! ([`PartLists`]). A list keeps its memory when it is emptied, so a row takes no allocation.

#![tactic(auto)]

mod cursor;
mod list;
mod lists;

pub use cursor::RowCursor;
pub use list::RowList;
pub use lists::{PARTS, PartLists, part_of};
