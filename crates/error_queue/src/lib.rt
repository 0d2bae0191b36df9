//! What a worker says on its error queue: the row that it was refused, or that it ended in order.
//!
//! A message is a few bytes whose first byte gives its kind, as in PostgreSQL's parallel workers: `E` for an error, `X`
//! for the end. Each number after `E` is stored lowest byte first. `encoding` of `specs/Message.antt` is the format;
//! `write` and `read` are its two directions, and neither takes memory.

#![tactic(auto)]

ghost use Rattle.std.specs.Prelude.{◌≡◌, IfOk, IfErr, Some, None, Ok, take, drop, length};
ghost use Rattle.error_queue.specs.Message.{encoding, refusal, IsMessage};
ghost use Rattle.error_queue.specs.declared.ErrorMessage.{ErrorMessage};

/// The first byte of a message that names a refused row.
const ROW_TAG: u8 = b'E';
/// The only byte of a message that ends a queue in order.
const END_TAG: u8 = b'X';
/// The bytes of the longest message.
pub const MESSAGE_BYTES: usize = 14;

/// A message of an error queue.
#[derive(Debug, Clone, Copy, PartialEq, Eq)]
pub enum ErrorMessage {
    /// A refused row: its number (the first row after the header is 1), the cause, and for cause 3 the place of the
    /// item.
    Row { row: u64, cause: u8, item: u32 },
    /// The worker ended in order.
    End,
}

/// Why bytes are no message.
#[derive(Debug, Clone, Copy, PartialEq, Eq)]
pub enum ErrorRead {
    /// There is no byte, or the first byte is a kind's and the number of bytes, given here, is not that kind's.
    Length { length: u64 },
    /// The first byte, given here, is no kind's.
    Tag { byte: u8 },
}

impl ErrorMessage {
    /// Writes the message to the front of `out` and returns the number of its bytes, [`MESSAGE_BYTES`] or 1. The bytes
    /// after them stay.
    pub fn write(&self, out: &mut [u8; MESSAGE_BYTES]) -> usize
        ensures bytes { take result out.new ≡ encoding self.now }
        ensures length { result ≡ length (encoding self.now) }
        ensures rest { drop result out.new ≡ drop result out.old }
    {
        match *self {
            ErrorMessage::Row { row, cause, item } => {
                out[0] = ROW_TAG;
                out[1..9].copy_from_slice(&row.to_le_bytes());
                out[9] = cause;
                out[10..14].copy_from_slice(&item.to_le_bytes());
                MESSAGE_BYTES
            }
            ErrorMessage::End => {
                out[0] = END_TAG;
                1
            }
        }
    }

    /// The message that these bytes are.
    pub fn read(bytes: &[u8]) -> Result<ErrorMessage, ErrorRead>
        ensures message { IfOk result (λ m. encoding m ≡ bytes.now) }
        ensures accepted { IfOk result (λ m. refusal bytes.now ≡ None) }
        ensures refused { IfErr result (λ e. refusal bytes.now ≡ Some e) }
        ensures written { (m : ErrorMessage) → IsMessage m → bytes.now ≡ encoding m → result ≡ Ok m }
    {
        match *bytes {
            [ROW_TAG, a, b, c, d, e, f, g, h, cause, i, j, k, l] => Ok(ErrorMessage::Row {
                row: u64::from_le_bytes([a, b, c, d, e, f, g, h]),
                cause,
                item: u32::from_le_bytes([i, j, k, l]),
            }),
            [END_TAG] => Ok(ErrorMessage::End),
            [] | [ROW_TAG, ..] | [END_TAG, ..] => Err(ErrorRead::Length {
                length: bytes.len() as u64,
            }),
            [byte, ..] => Err(ErrorRead::Tag { byte }),
        }
    }
}
