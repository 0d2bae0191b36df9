//! What the history of a barrier is made of: the calls with their replies, and the states between them. A state is what
//! contracts see of the parties; no value of it is made.

use std::collections::LinkedList;

/// The state of a barrier between two calls: the phase, modulo 2^64; the callers that are attached, in the order in
/// which they came; those of them that have arrived in this phase, in order; and which one was elected when the last
/// phase ended, if one has ended.
pub struct BarrierState {
    pub phase: u64,
    pub attached: LinkedList<u32>,
    pub arrived: LinkedList<u32>,
    pub elected: Option<u32>,
}

/// A call at a barrier.
#[derive(Clone, Copy, Debug, PartialEq, Eq)]
pub enum BarrierCall {
    Attach,
    Arrive,
    Look,
    Detach,
    ArriveAndDetach,
    ArriveAndDetachExceptLast,
}

/// What a call is answered. Each except `Waiting` has the phase after the call.
#[derive(Clone, Copy, Debug, PartialEq, Eq)]
pub enum BarrierReply {
    /// The caller takes part from this phase on.
    Attached(u64),
    /// Another caller has yet to arrive.
    Waiting,
    /// A phase ended since the caller arrived; whether the caller was elected.
    Released(u64, bool),
    /// The caller takes part no more; whether nobody does.
    Left(u64, bool),
    /// Attached already.
    AlreadyIn(u64),
    /// Not attached.
    NotIn(u64),
    /// Arrived in this phase already.
    Twice(u64),
}
