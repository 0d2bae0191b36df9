//! What a seat at the table knows. It appears only in the proofs: no value of these types is made.

use std::collections::LinkedList;

/// One call in a history: the caller's number, the call, the reply and the state after it.
pub struct Entry<S, C, R> {
    pub by: u64,
    pub call: C,
    pub reply: R,
    pub after: S,
}

/// Whether a seat has a value.
pub enum Stage {
    /// It has none.
    Idle,
    /// It has the value at this place.
    Holding(u64),
}

/// What is known of a shelf by the callers that a seat represents.
pub struct View<N, S, C, R> {
    /// The name and the opening state of each value.
    pub opens: LinkedList<(N, S)>,
    /// How many callers the shelf has.
    pub callers: u64,
    /// The number of the first caller that the seat represents.
    pub from: u64,
    /// Of each caller that it represents, the calls that it made, each with the place of its value.
    pub owns: LinkedList<LinkedList<(u64, Entry<S, C, R>)>>,
    /// Of each value, the history that was seen.
    pub seen: LinkedList<LinkedList<Entry<S, C, R>>>,
    /// Of each value, the history that the seat learnt of from others.
    pub told: LinkedList<LinkedList<Entry<S, C, R>>>,
    /// Whether the seat has a value; only one of one caller may.
    pub stage: Stage,
    /// How many single tries of the seat found a value taken.
    pub misses: u64,
}
