//! What each participant passes before each of its blocks. The program's gate is open; tests hold participants at
//! theirs.

/// A gate. It is passed by the leader as participant 0, and by the workers from 1 on. No contract says what a gate does
/// but that it comes back.
pub trait Gate {
    /// Passes the participant on to a block that it has drawn, and whose rows it adds next.
    fn pass(&self, participant: u32, block: u64);
}

/// A gate that holds nobody.
pub struct OpenGate;

impl Gate for OpenGate {
    fn pass(&self, _participant: u32, _block: u64) {}
}
