//! What the history of a key's cell is made of: the calls with their replies, and the states between them.

/// The state of a cell between two calls. Loads of a key are numbered, so that a caller that waits for one can say which.
#[derive(Clone, Copy, Drop)]
pub enum CellState<V> {
    /// There is no value, and the next load has this number.
    Empty(u64),
    /// The caller of this number (the second) has the load of this number (the first).
    Loading(u64, u32),
    /// The load of this number put this value.
    Here(u64, V),
}

/// A call at a cell.
#[derive(Clone, Copy, Drop)]
pub enum CellCall<V> {
    /// The value is asked for, or else the load.
    Ask,
    /// A caller that waits for the load of this number asks what came of it.
    Look(u64),
    /// The caller ends its load with this value.
    Put(V),
    /// The caller ends its load without a value.
    Fail,
    /// The value is to be taken out.
    Remove,
}

/// What a call is answered.
#[derive(Clone, Copy, Drop)]
pub enum CellReply<V> {
    /// This value is there.
    Value(V),
    /// There is none, and the caller has the load of this number.
    Yours(u64),
    /// There is none, and another call has the load of this number.
    Busy(u64),
    /// There is no value of that load.
    Failed,
    /// It was done.
    Done,
    /// It is not the caller's load, or there is no value to take out.
    Refused,
}
