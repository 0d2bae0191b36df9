//! What is sent.

ghost use Rattle.std.specs.Prelude.{◌≡◌, ℕ, ◌≤◌, List, length, take, drop};
ghost use Rattle.placed_queue.specs.Receives.{Has};

use std::marker::Model;

/// The most bytes of a message.
pub const MOST_BYTES: usize = 240;

/// A message in place. Contracts see its bytes.
#[derive(Drop)]
pub struct Text {
    bytes: [u8; 240],
    len: usize,
}

impl Model for Text {
    ghost Value = { List ℕ };

    ghost view = { λ t. take t.len t.bytes };

    ghost invariant = { λ t. t.len ≤ 240 };
}

impl Text {
    /// A copy of the message, which has at most `MOST_BYTES` bytes.
    pub fn of(message: &[u8]) -> Text
        requires { length message.now ≤ 240 }
        ensures { result ≡ message.now }
    {
        let mut bytes = [0u8; 240];
        let len = message.len();
        bytes[..len].copy_from_slice(message);
        Text { bytes, len }
    }

    /// Another one with the same bytes.
    pub fn copied(&self) -> Text
        ensures { result ≡ self.now }
    {
        Text {
            bytes: self.bytes,
            len: self.len,
        }
    }

    /// Its length in bytes.
    pub fn len(&self) -> usize
        ensures value { result ≡ length self.now }
        ensures few { result ≤ 240 }
    {
        self.len
    }

    /// Writes it to the front of the bytes, and answers its length.
    pub fn write_to(&self, out: &mut [u8]) -> usize
        requires { 240 ≤ length out.old }
        ensures { Has out.old out.new self.now result }
    {
        let len = self.len;
        out[..len].copy_from_slice(&self.bytes[..len]);
        len
    }
}

/// What stands in a history.
#[derive(Drop)]
pub enum Item {
    /// A message.
    Message(Text),
    /// The sender has left.
    End,
}

impl Item {
    /// Another one of the same content.
    pub fn copied(&self) -> Item
        ensures { result ≡ self.now }
    {
        match self {
            Item::Message(text) => Item::Message(text.copied()),
            Item::End => Item::End,
        }
    }
}
