//! What a line says of files of partial states that are not taken, and of bytes that they have twice or not at all. The texts are those
//! of `docs/STATES.md`.

#![tactic(auto)]

mod causes;
mod covers;

pub use causes::cause_pieces;
pub use covers::{cover_pieces, gap_pieces};
