//! What a file of partial states begins with: its first line, and its head as a section.

#![tactic(auto)]

mod front;
mod title;

pub use front::{FrontFault, FrontRead, FrontWrite, push_front, read_front};
