//! The cell that a group has in the shared hash table: its partial state, to which each call adds another.
//!
//! A participant calls the table with the state of a group of one of its blocks, and the key's cell becomes the state
//! of all rows that were called so far; a key that has no cell gets the called state. `words` says how a state is
//! stored in the cell's 41 words, `cell` is the object, `laws` says what is under a key after its calls, in whichever
//! order they came.

#![tactic(auto)]

mod cell;
mod laws;
mod words;

pub use cell::AggObject;
pub use laws::{
    adds_at_once, any_order, callers_make_all, cells_combine, groups_combine, parts_combine,
};
pub use words::STATE_WORDS;
