//! The bytes of a source of any length, window by window.
//!
//! A [`Window`] has the next bytes of a source up to the last place at which a table can be cut, and behind that the
//! beginning of the next line, which goes in front of the next window. A table can be cut in front of the end of a line
//! that stands outside quotes: the front then ends its last record there as at the end of a text, and the back begins
//! with an end of line, which begins no record. So the records of the windows, one after another, are those of all
//! bytes ([`records_add_up`]), whatever the window's size and wherever a read ends.
//!
//! Each window but the first begins with the line of the header, so that it is a table of its own.

#![tactic(auto)]

mod cut;
mod header;
mod law;
mod quotes;
mod read;
mod window;

pub use header::header_end;
pub use law::records_add_up;
pub use window::{MOST_RECORD_BYTES, Window, WindowAnswer};
