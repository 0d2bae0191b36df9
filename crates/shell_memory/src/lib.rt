//! What a shell keeps in memory, and the commands over it: chunks of an area, a hash table of numbers, and a table of
//! contents.
//!
//! A `Heap` is the area with its one pass, from which chunks and the hash table take their words; the table of contents
//! has its own words. `chunks`, `table` and `contents` are the families of commands. Each holds tokens under names,
//! makes the one call of the region that a command is, and answers a line that is made of what that call returned. So
//! an answer cannot come from a copy outside the region, and what a family's page of `specs/` says of it speaks only of
//! the tokens.

#![tactic(auto)]

mod answers;
mod chunks;
mod contents;
mod heap;
mod table;

pub use answers::{plain, with_number, with_numbers};
pub use chunks::Chunks;
pub use contents::{Contents, TOC_WORDS};
pub use heap::Heap;
pub use table::Cells;
