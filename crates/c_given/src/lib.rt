//! A queue in memory that a caller brings, for callers that no contract binds.
//!
//! The ring's words and slots lie in two blocks of the caller's, and what waits there for its two sides in a third one,
//! the head (`head`). Nothing of it is an address, and each process calls with its own addresses of the three (`given`).
//! A process that takes a side makes a handle of its own heap (`open`), which `c_queue`'s calls serve: its region has
//! the process's own two addresses. The receiving side is taken first, and the sending side after it.

#![tactic(auto)]

mod given;
mod head;
mod open;

pub use given::{Rows, Site};
pub use head::{Head, Mark};
pub use open::{open_at, open_receiver, open_sender};
