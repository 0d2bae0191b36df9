//! A source of a table without a header, to which it gives one: the numbers of the columns.
//!
//! The header is `1,2,..,n` if the first record has n fields, with the table's own separator, and a carriage return ends it: this
//! ends a line of a table, but nothing that counts line feeds counts it, so the first record of the file is row 1 and lies in
//! line 1. If the separator is a digit the numbers are in quotes; otherwise they are not, since a text without quotes is scanned faster.

#![tactic(auto)]

mod ahead;
mod bytes;
mod front;
mod header;
mod law;
mod numbered;

pub use front::FRONT;
pub use law::numbers_are_header;
pub use numbered::Numbered;
