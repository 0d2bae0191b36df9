//! A shell over a region: each line is a command to the area, to a hash table, to rings, to the table of contents or to
//! barriers, and has one answer line.
//!
//! A `Shell` holds the tokens of all that its commands made, and is seen as what these tokens show: the words of each
//! chunk, the two ends of each ring, the histories of the area, of the hash table and of each barrier, the words of the
//! table of contents. So an answer cannot come from a copy that the shell keeps outside the region.
//!
//! `shell_lines` says which command a line is, and `shell` sends it to its family, of `shell_memory` or `shell_sync`;
//! `script`, `stop` and `run` are the top call over a whole script.

#![tactic(auto)]

mod run;
mod script;
mod shell;
mod status;
mod stop;

pub use run::parsh;
pub use shell::Shell;
pub use status::{ANSWERED, MISUSED, NO_MEMORY, READ_FAULT, TOO_LARGE, WRITE_FAULT};
