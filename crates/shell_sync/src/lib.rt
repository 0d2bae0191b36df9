//! What a shell lets its callers share, and the commands over it: rings, which carry messages from a sender to a
//! receiver, and barriers, at which callers wait for one another.
//!
//! The shell is every party at once: it holds both ends of each ring and the passes of all callers of each barrier.
//! They meet after each call, so that each knows what the others did, and an answer is the one that a separate party
//! would get. `rings` and `barriers` are the families of commands, each with its page of `specs/`.

#![tactic(auto)]

mod barriers;
mod rings;

pub use barriers::Barriers;
pub use rings::Rings;
