//! One end of a queue, of either kind.

ghost use Rattle.std.specs.Prelude.{◌≡◌};
ghost use Rattle.c_placed.specs.Ends.{queue_of, code_of_send, code_of_receive, EndSends, EndFinishes, EndReceives};

use crate::code::Code;
use placed_queue::{Queue, ReceiveAnswer, Receiver, SendAnswer, Sender};

/// One end of a queue.
#[derive(Drop)]
pub enum End {
    /// An end that sends.
    Sends(Sender),
    /// The end that receives.
    Receives(Receiver),
}

/// The code of an answer to a send.
fn sent(answer: SendAnswer) -> Code
    ensures { result ≡ code_of_send answer }
{
    match answer {
        SendAnswer::Sent => Code::Done,
        SendAnswer::WouldBlock => Code::WouldBlock,
        SendAnswer::Overtaken => Code::Overtaken,
        SendAnswer::TooLong => Code::TooLong,
        SendAnswer::Gone => Code::Gone,
    }
}

/// The code of an answer to a receive.
fn received(answer: ReceiveAnswer) -> Code
    ensures { result ≡ code_of_receive answer }
{
    match answer {
        ReceiveAnswer::Received => Code::Done,
        ReceiveAnswer::WouldBlock => Code::WouldBlock,
        ReceiveAnswer::Detached => Code::Detached,
        ReceiveAnswer::ShortBuffer => Code::ShortBuffer,
        ReceiveAnswer::OutOfOrder => Code::OutOfOrder,
    }
}

impl End {
    /// As `Sender::send`, of an end that sends.
    pub fn send(&mut self, queue: &Queue, message: &[u8]) -> Code
        requires { queue_of self.old ≡ queue.now }
        ensures { EndSends self.old self.new message.now result }
    {
        match self {
            End::Sends(end) => sent(end.send(queue, message)),
            End::Receives(_) => Code::OtherKind,
        }
    }

    /// As `Sender::finish`, of an end that sends.
    pub fn finish(&mut self, queue: &Queue) -> Code
        requires { queue_of self.old ≡ queue.now }
        ensures { EndFinishes self.old self.new result }
    {
        match self {
            End::Sends(end) => sent(end.finish(queue)),
            End::Receives(_) => Code::OtherKind,
        }
    }

    /// As `Receiver::receive`, of the end that receives.
    pub fn receive(&mut self, queue: &Queue, out: &mut [u8]) -> (Code, usize)
        requires { queue_of self.old ≡ queue.now }
        ensures { EndReceives self.old self.new out.old out.new result.0 result.1 }
    {
        match self {
            End::Sends(_) => (Code::OtherKind, 0),
            End::Receives(end) => {
                let (answer, n) = end.receive(queue, out);
                (received(answer), n)
            }
        }
    }
}
