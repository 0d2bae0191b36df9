//! What a call answers.

ghost use Rattle.std.specs.Prelude.{◌≡◌};
ghost use Rattle.c_table.specs.Numbers.{number_of};

/// What became of a call. Which of them a call may answer, and when, its contract says.
#[derive(Clone, Copy, Debug, PartialEq, Eq)]
pub enum Code {
    /// It is done; if it is a call of a key, the key was there.
    Done,
    /// Another caller has the key's partition.
    WouldBlock,
    /// It is done, and the key was not there.
    Absent,
    /// The key's partition has grown first: call again.
    Grown,
    /// The handle has nothing.
    Blank,
    /// There is no memory.
    NoMemory,
    /// A size out of range.
    BadSize,
    /// There are no callers, too many, or none that has no handle yet.
    BadCallers,
    /// The caller's own words have no room for what is lacking.
    NoSpace,
    /// The caller's rows have no room for all entries.
    ShortBuffer,
    /// The handle has something already.
    InUse,
}

impl Code {
    /// Its number in C: 0 is done, above 0 is an answer, below 0 nothing was done to the key.
    pub fn number(self) -> i32
        ensures { result ≡ number_of self }
    {
        match self {
            Code::Done => 0,
            Code::WouldBlock => 1,
            Code::Absent => 3,
            Code::Grown => 4,
            Code::Blank => -1,
            Code::NoMemory => -4,
            Code::BadSize => -5,
            Code::BadCallers => -6,
            Code::NoSpace => -9,
            Code::ShortBuffer => -18,
            Code::InUse => -19,
        }
    }
}
