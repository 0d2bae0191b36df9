//! What the forms of a program over comma-separated bytes have in common once their rows are read: the exit statuses,
//! the line that says why there is no answer, and the writing of a text in pieces or of records, one by one or by several
//! threads, to a sink.
//!
//! A form decides what stops it, and which text its line has. This crate writes the text as a line, and knows nothing
//! of its origin. Records go through a buffer whose memory is taken beforehand, so an answer that was begun is never
//! broken off because memory runs out.

#![tactic(auto)]

mod held;
mod line;
mod lines;
mod memory;
mod record;
mod status;
mod text;

pub use held::Held;
pub use line::write_pieces;
pub use lines::{Lines, put_in_threads};
pub use record::{begins_special, put_fields, put_known, put_record};
pub use status::{MISUSED, NO_MEMORY, READ_FAULT, REFUSED, TABLE, TOO_LARGE, WRITE_FAULT};
pub use text::write_each;
