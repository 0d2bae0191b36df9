//! The rows of a table that a plan does not refuse, taken out of its text line by line.
//!
//! A line begins in front of the end of a line that is not between quotes, and ends in front of the next one: so it has one
//! record, or none. If that row is refused the line is left out, but for its first byte, and the records of what is left are
//! the other rows ([`good_rows_are_left`]).

#![tactic(auto)]

mod law;
mod line;
mod rating;

pub use law::good_rows_are_left;
pub use line::{LineEnd, last_end, line_end};
pub use rating::{Judged, count_good, judge};
