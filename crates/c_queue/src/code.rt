//! What a call answers.

ghost use Rattle.std.specs.Prelude.{◌≡◌};
ghost use Rattle.c_queue.specs.Numbers.{number_of};

/// What became of a call. Which of them a call may answer, and when, its contract says.
#[derive(Clone, Copy, Debug, PartialEq, Eq)]
pub enum Code {
    /// It is done.
    Done,
    /// The ring is full, or no whole message is there.
    WouldBlock,
    /// The other side has left.
    Detached,
    /// The handle has nothing.
    Blank,
    /// The handle has the other side.
    OtherKind,
    /// There is no memory.
    NoMemory,
    /// A size out of range.
    BadSize,
    /// The message is longer than the queue takes.
    TooLong,
    /// A part of another message is on the ring.
    OtherMessage,
    /// This side has left.
    Gone,
    /// The caller's bytes have no room for the greatest message.
    ShortBuffer,
    /// The handle has something already.
    InUse,
    /// This side has not left yet.
    StillIn,
    /// Somebody else has this side.
    Taken,
}

impl Code {
    /// Its number in C: 0 is done, above 0 is an answer, below 0 nothing was changed.
    pub fn number(self) -> i32
        ensures { result ≡ number_of self }
    {
        match self {
            Code::Done => 0,
            Code::WouldBlock => 1,
            Code::Detached => 2,
            Code::Blank => -1,
            Code::OtherKind => -2,
            Code::NoMemory => -4,
            Code::BadSize => -5,
            Code::TooLong => -7,
            Code::OtherMessage => -8,
            Code::Gone => -17,
            Code::ShortBuffer => -18,
            Code::InUse => -19,
            Code::StillIn => -20,
            Code::Taken => -21,
        }
    }
}
