//! One side of a queue, of either kind.

ghost use Rattle.std.specs.Prelude.{◌≡◌};
ghost use Rattle.c_queue.specs.Ends.{EndSends, EndSendsWhole, EndFlushes, EndReceives, EndLeaves, has_left};

use crate::code::Code;
use crate::inbox::Inbox;
use crate::outbox::Outbox;

/// One side of a queue.
#[derive(Drop)]
pub enum End {
    /// The side that sends.
    Sends(Outbox),
    /// The side that receives.
    Receives(Inbox),
}

impl End {
    /// As `Outbox::try_send`, of the side that sends.
    pub fn try_send(&mut self, message: &[u8], flush: bool) -> Code
        ensures { EndSends self.old self.new message.now flush result }
    {
        match self {
            End::Sends(side) => side.try_send(message, flush),
            End::Receives(_) => Code::OtherKind,
        }
    }

    /// As `Outbox::try_send_whole`, of the side that sends.
    pub fn try_send_whole(&mut self, message: &[u8], flush: bool) -> Code
        ensures { EndSendsWhole self.old self.new message.now flush result }
    {
        match self {
            End::Sends(side) => side.try_send_whole(message, flush),
            End::Receives(_) => Code::OtherKind,
        }
    }

    /// As `Outbox::flush`, of the side that sends.
    pub fn flush(&mut self) -> Code
        ensures { EndFlushes self.old self.new result }
    {
        match self {
            End::Sends(side) => side.flush(),
            End::Receives(_) => Code::OtherKind,
        }
    }

    /// As `Inbox::try_receive`, of the side that receives.
    pub fn try_receive(&mut self, out: &mut [u8]) -> (Code, usize)
        ensures { EndReceives self.old self.new out.old out.new result.0 result.1 }
    {
        match self {
            End::Sends(_) => (Code::OtherKind, 0),
            End::Receives(side) => side.try_receive(out),
        }
    }

    /// Whether it has left.
    pub fn has_left(&self) -> bool
        ensures { result ≡ has_left self.now }
    {
        match self {
            End::Sends(side) => side.has_left(),
            End::Receives(side) => side.has_left(),
        }
    }

    /// Leaves the queue.
    pub fn leave(&mut self) -> Code
        ensures { EndLeaves self.old self.new result }
    {
        match self {
            End::Sends(side) => side.leave(),
            End::Receives(side) => side.leave(),
        }
    }
}
