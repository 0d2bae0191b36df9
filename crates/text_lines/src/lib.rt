//! The line of a byte in a text, as an editor shows it.
//!
//! A line ends with a line feed, and with nothing else: so `sed`, `grep -n` and most editors count. [`line_feeds`] counts
//! those of any bytes, [`record_begin`] gives the first byte of a record of lines, and [`open_quote`] the quote that is
//! not closed, if there is one.

#![tactic(auto)]

mod begin;
mod feeds;
mod quote;

pub use begin::{past_ends, record_begin};
pub use feeds::line_feeds;
pub use quote::open_quote;
