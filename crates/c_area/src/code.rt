//! What a call answers.

ghost use Rattle.std.specs.Prelude.{◌≡◌};
ghost use Rattle.c_area.specs.Numbers.{number_of};

/// What became of a call. Which of them a call may answer, and when, its contract says.
#[derive(Clone, Copy, Debug, PartialEq, Eq)]
pub enum Code {
    /// It is done.
    Done,
    /// Another caller is at the area.
    WouldBlock,
    /// It is done, and there was nothing to give back or to find.
    Absent,
    /// The handle has nothing.
    Blank,
    /// There is no memory.
    NoMemory,
    /// A size out of range.
    BadSize,
    /// There are no callers, too many, or none that has no handle yet.
    BadCallers,
    /// The area has no pages in a row for the chunk.
    NoSpace,
    /// The chunk has no such words.
    NoWord,
    /// The handle has something already.
    InUse,
    /// The caller has chunks still.
    StillIn,
    /// The caller has no chunk of this number, or the area has none of its place and size.
    Stranger,
}

impl Code {
    /// Its number in C: 0 is done, above 0 is an answer, below 0 nothing was changed.
    pub fn number(self) -> i32
        ensures { result ≡ number_of self }
    {
        match self {
            Code::Done => 0,
            Code::WouldBlock => 1,
            Code::Absent => 3,
            Code::Blank => -1,
            Code::NoMemory => -4,
            Code::BadSize => -5,
            Code::BadCallers => -6,
            Code::NoSpace => -9,
            Code::NoWord => -10,
            Code::InUse => -19,
            Code::StillIn => -20,
            Code::Stranger => -32,
        }
    }
}
