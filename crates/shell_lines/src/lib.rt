//! The lines of a shell's script: which command each is, if it is one.
//!
//! `words` cuts a line at single spaces, and recognizes names and numbers. Each family of commands has its own file:
//! `chunks`, `table`, `rings`, `contents` and `barriers`; `command` asks them in turn. A line is recognized by its
//! bytes only, so nothing here takes memory, and a command lends its names and texts from the line.

#![tactic(auto)]

mod barriers;
mod chunks;
mod command;
mod contents;
mod rings;
mod table;
mod words;

pub use barriers::{BarrierCommand, PartyCall};
pub use chunks::ChunkCommand;
pub use command::{Command, read_line};
pub use contents::TocCommand;
pub use rings::RingCommand;
pub use table::TableCommand;
pub use words::{number, place_of};
