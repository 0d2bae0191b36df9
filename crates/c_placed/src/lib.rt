//! A queue in memory that a caller brings, for callers that no contract binds.
//!
//! `given` has the caller's memory and the place of a queue in it. An `end` is a sender or the receiver, and a
//! `Handle` owns one through a bare pointer of its process's own heap, or nothing. In the memory that the caller
//! brings no pointer lies. Each call tries once, and answers a `Code` that says why. No call waits.

#![tactic(auto)]

mod code;
mod end;
mod given;
mod handle;

pub use code::Code;
pub use end::End;
pub use given::{Given, Site};
pub use handle::{Handle, open_at, open_receiver, open_sender};
