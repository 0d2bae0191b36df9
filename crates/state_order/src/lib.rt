//! The order of the groups of a file of partial states: that of the table's lines, within the file's range of keys; and which keys lie in a
//! range.

#![tactic(auto)]

mod order;
mod ranges;

pub use order::{KeyOrder, OrderFault};
pub use ranges::is_within;
