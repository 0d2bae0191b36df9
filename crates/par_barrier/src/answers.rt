//! What the calls of a barrier answer.

/// The answer to a party that arrives, or looks.
#[derive(Clone, Copy, Debug, PartialEq, Eq)]
pub enum Arrival {
    /// It has arrived, and another has yet to arrive.
    Waiting,
    /// The phase that is on now, and whether the end of the one before elected this party.
    Released { phase: u64, elected: bool },
}

/// The answer to a party that waited for the end of its phase: the phase that is on now, and whether it was elected.
#[derive(Clone, Copy, Debug, PartialEq, Eq)]
pub struct Arrived {
    pub phase: u64,
    pub elected: bool,
}

/// The answer to a party that leaves: the phase that is on now, and whether nobody takes part any more.
#[derive(Clone, Copy, Debug, PartialEq, Eq)]
pub struct Left {
    pub phase: u64,
    pub last: bool,
}

/// The answer to a party that leaves unless it is the last: the phase that is on now.
#[derive(Clone, Copy, Debug, PartialEq, Eq)]
pub enum Departure {
    /// It takes part no more, and others do.
    Left { phase: u64 },
    /// Nobody else took part: the phase has ended, and it takes part still.
    Last { phase: u64 },
}

/// Why a call changed nothing, with the phase that was on at that moment.
#[derive(Clone, Copy, Debug, PartialEq, Eq, Drop)]
pub enum BarrierAnswer {
    /// It attached, and takes part already.
    AlreadyIn { phase: u64 },
    /// It does not take part.
    NotIn { phase: u64 },
    /// It has arrived in this phase already.
    Twice { phase: u64 },
}
