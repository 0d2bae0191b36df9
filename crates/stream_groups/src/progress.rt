//! What is told of a reading while it goes on.

/// How far a reading has come.
#[derive(Clone, Copy, Debug)]
pub struct SoFar {
    /// The bytes of the windows that were read, each with the line of the header in front of it.
    pub bytes: u64,
    /// The rows that were added to groups.
    pub rows: u64,
    /// There are as many groups at least: those of the participant that has most of them, or, with parts, of the rows that
    /// were added to these.
    pub groups: u64,
}

/// What is told of a reading while it goes on, and shows it to somebody.
pub trait Progress {
    /// The reading has come so far. It is told after each window but the last.
    fn tell(&mut self, so_far: SoFar);

    /// The reading has ended, with groups or with a reason to have no table: nothing more is told, and what was shown is to
    /// go before the answer comes.
    fn end(&mut self);
}

/// Tells nobody.
#[derive(Clone, Copy, Debug)]
pub struct Untold;

impl Progress for Untold {
    fn tell(&mut self, _so_far: SoFar) {}

    fn end(&mut self) {}
}
