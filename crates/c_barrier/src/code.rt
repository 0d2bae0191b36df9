//! What a call answers.

ghost use Rattle.std.specs.Prelude.{◌≡◌};
ghost use Rattle.c_barrier.specs.Numbers.{number_of};

/// What became of a call. Which of them a call may answer, and when, its contract says.
#[derive(Clone, Copy, Debug, PartialEq, Eq)]
pub enum Code {
    /// It is done.
    Done,
    /// Another caller is at the barrier.
    WouldBlock,
    /// The caller has arrived, and another has yet to.
    Waiting,
    /// The handle has nothing.
    Blank,
    /// There is no memory.
    NoMemory,
    /// There are no callers, too many, or none that has no handle yet.
    BadCallers,
    /// The caller takes part already.
    AlreadyIn,
    /// The caller does not take part.
    NotIn,
    /// The caller has arrived in this phase already.
    Twice,
    /// The handle has something already.
    InUse,
}

impl Code {
    /// Its number in C: 0 is done, above 0 is an answer, below 0 nothing was changed.
    pub fn number(self) -> i32
        ensures { result ≡ number_of self }
    {
        match self {
            Code::Done => 0,
            Code::WouldBlock => 1,
            Code::Waiting => 7,
            Code::Blank => -1,
            Code::NoMemory => -4,
            Code::BadCallers => -6,
            Code::AlreadyIn => -12,
            Code::NotIn => -13,
            Code::Twice => -14,
            Code::InUse => -19,
        }
    }
}
