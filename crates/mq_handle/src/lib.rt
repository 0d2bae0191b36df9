//! A queue of messages over a ring of words, as in shm_mq.c.
//!
//! A message lies on the ring as its length in one word and then its bytes in words, zero-padded. A message may be
//! longer than the ring: a try that finds the ring full has stored a part, and the caller repeats the call with the
//! same message. `try_send_whole` stores a message whole or not at all. The sender publishes what it put in three
//! cases: at the end of a message, if that is asked for or more than a quarter of the ring is unpublished; before it
//! answers that it would block; and before it sets the flag. The receiver gives room back in two: at the end of a
//! message, if more than a quarter of the ring was not given back; and before it answers that it would block. Each call
//! is a row of steps on the ring's words, and `mq_ring` says who may make them: only the sender stores the cells and
//! the written count, only the receiver stores the read count, and each sets the flag as its last step. The ring's ends
//! hold no list of messages; `specs/Messages.antt` reads it off the words (`whole_of`).
//!
//! `body` is the bytes of a message to send, in one slice or several, `storing` puts the words of a frame on the ring
//! and `taking` takes them off it, `looking` looks for more room and for more words, `sending`, `sending_whole` and
//! `receiving` are one try each, `sender`, `receiver` and `waiting` are the calls over these, and `queue` makes a queue
//! and brings its ends together.

#![tactic(auto)]

mod answers;
mod body;
mod laws;
mod looking;
mod queue;
mod receiver;
mod receiving;
mod sender;
mod sending;
mod sending_whole;
mod storing;
mod taking;
mod waiting;

pub use answers::{ReceiveAnswer, ReceiveDone, SendAnswer, SendDone};
pub use laws::whole_is_longest;
pub use queue::{AttachRefused, MqDone, attach, home, meet};
pub use receiver::Receiver;
pub use sender::Sender;
