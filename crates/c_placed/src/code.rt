//! What a call answers.

ghost use Rattle.std.specs.Prelude.{◌≡◌};
ghost use Rattle.c_placed.specs.Numbers.{number_of};

/// What became of a call. Which of them a call may answer, and when, its contract says.
#[derive(Clone, Copy, Debug, PartialEq, Eq)]
pub enum Code {
    /// It is done.
    Done,
    /// The next place is not free, or no message is there.
    WouldBlock,
    /// The sender has left, and all was received.
    Detached,
    /// Another sender was first.
    Overtaken,
    /// The handle has nothing.
    Blank,
    /// The handle has an end of the other kind.
    OtherKind,
    /// There is no memory.
    NoMemory,
    /// The given memory is too small.
    BadSize,
    /// The message is longer than any may be.
    TooLong,
    /// This end has left.
    Gone,
    /// The caller's bytes have no room for the longest message.
    ShortBuffer,
    /// The handle has something already.
    InUse,
    /// Somebody else has the receiving end.
    Taken,
    /// The message in the next place was not the next one.
    OutOfOrder,
}

impl Code {
    /// Its number in C: 0 is done, above 0 is an answer, below 0 nothing was changed.
    pub fn number(self) -> i32
        ensures { result ≡ number_of self }
    {
        match self {
            Code::Done => 0,
            Code::WouldBlock => 1,
            Code::Detached => 2,
            Code::Overtaken => 6,
            Code::Blank => -1,
            Code::OtherKind => -2,
            Code::NoMemory => -4,
            Code::BadSize => -5,
            Code::TooLong => -7,
            Code::Gone => -17,
            Code::ShortBuffer => -18,
            Code::InUse => -19,
            Code::Taken => -21,
            Code::OutOfOrder => -22,
        }
    }
}
