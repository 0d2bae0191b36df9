//! What a seat knows of the draws. It appears only in the proofs: no value of it is made.

ghost use Rattle.std.specs.Prelude.{◌≡◌, ℕ};

use std::collections::LinkedList;

/// The draws of the callers that a seat of the table represents, in order of their numbers.
pub struct Draws {
    /// How many blocks there are.
    pub blocks: u64,
    /// How many callers there are in all.
    pub callers: u64,
    /// The number of the first caller that the seat represents.
    pub from: u64,
    /// Of each caller that it represents, the numbers that it drew, in order.
    pub lists: LinkedList<LinkedList<u64>>,
}
