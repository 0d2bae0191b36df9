//! What a call answers.

/// What a try to send answers.
#[derive(Clone, Copy, Debug, PartialEq, Eq)]
pub enum SendAnswer {
    /// The message is on the ring.
    Sent,
    /// The ring is full; this many words of the frame, with its length word, are on it. Call again with the same
    /// message. After a whole send it means that the ring has too little room, and as many words of the frame are on it
    /// as before, mostly none; then any message may follow.
    WouldBlock { stored: u64 },
    /// The receiver has detached. Nothing was stored.
    Detached,
    /// The message, of this length in bytes, is longer than the queue takes; or, in a whole send, its frame is longer
    /// than the ring. Nothing was done.
    TooLong { length: u64 },
}

/// What a send answers.
#[derive(Clone, Copy, Debug, PartialEq, Eq)]
pub enum SendDone {
    /// The message is on the ring.
    Sent,
    /// The receiver has detached. Earlier tries of this call may have stored a part of the message.
    Detached,
    /// The message, of this length in bytes, is longer than the queue takes. Nothing was done.
    TooLong { length: u64 },
}

/// What a try to receive answers.
#[derive(Clone, Copy, Debug, PartialEq, Eq)]
pub enum ReceiveAnswer {
    /// `Receiver::message` has the next message.
    Message,
    /// No whole message has come yet. A part of one may have been taken, and is kept.
    WouldBlock,
    /// The sender has detached, and there is no further whole message.
    Detached,
}

/// What a receive answers.
#[derive(Clone, Copy, Debug, PartialEq, Eq)]
pub enum ReceiveDone {
    /// `Receiver::message` has the next message.
    Message,
    /// The sender has detached, and there is no further whole message.
    Detached,
}
