//! The head of a file of partial states: the words of a plan, which bytes of which source it is of, a range of keys.

#![tactic(auto)]

mod cover;
mod head;
mod list;
mod whole;
mod words;

pub use cover::{Place, RefusedRow, Rows, Stretch, push_stretch, read_stretch};
pub use head::{Head, push_head, read_head};
pub use list::{push_cover, read_cover};
pub use whole::{Whole, push_whole, read_whole};
pub use words::{KeyRange, PlanWords, push_range, push_words, read_range, read_words};
