//! Numbers of blocks that threads draw, each once.
//!
//! A counter is one word of an `atomic_table`. A caller draws by one fetch-and-add, and keeps in its seat what it drew.
//! The invariant is `Counts` of specs/Drawing: the word is the number of draws made, and each number below it was drawn
//! by one seat.

#![tactic(auto)]

mod claims;
mod view;

pub use claims::{ClaimSeat, Claims, Drawn};
pub use view::Draws;
