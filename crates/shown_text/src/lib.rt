//! What a line of a program says of bytes that it was given: fields and names as a terminal may show them, a field that is
//! no number, a row with a wrong number of fields, and a header that lacks a name.
//!
//! Each text is a function of what it is about, and none of the bytes in it can be a command to a terminal.

#![tactic(auto)]

mod escaped;
mod header;
mod number;
mod width;

pub use escaped::{MOST_SHOWN, put_escaped, put_shown, shown};
pub use header::{MOST_FIELDS, missing_text};
pub use number::number_text;
pub use width::width_text;
