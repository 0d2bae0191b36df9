//! Free objects that a caller of an area keeps for itself, so that it takes a pool's lock once for many of them.
//!
//! A kept object is live at its pool until it goes back, so other callers do not get it; the caller that keeps it owns
//! its words. The token of the words says the rest: what comes out has no word in common with any other chunk. `spares`
//! is the list of one size class, `classes` those of all of them, for a caller that asks for chunks of any size.

#![tactic(auto)]

mod classes;
mod spares;

pub use classes::ClassSpares;
pub use spares::Spares;
