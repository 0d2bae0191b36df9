//! A text without quotes, copied so that each of its lines ends in one line feed.
//!
//! A carriage return ends a line as a line feed does, and an empty line is no record. So a return before a line feed
//! can go, any other return is as good as a line feed, and line ends before the first record or after the last count
//! for nothing.

ghost use Rattle.std.specs.Prelude.{◌≡◌, IfOk};
ghost use Rattle.csv_rows.specs.Plain.{NoReturn, is_line_end, plain_records};

use memchr::memchr;
use std::alloc::{AllocError, Global};

/// The text without the line ends before its first record.
pub(crate) fn without_front(text: &[u8]) -> &[u8]
    ensures { plain_records result.now ≡ plain_records text.now }
{
    let mut at = 0;
    'ends: while at < text.len() && is_line_end(text[at]) {
        at += 1;
    }
    &text[at..]
}

/// The text without the line ends after its last record.
pub(crate) fn without_back(text: &[u8]) -> &[u8]
    ensures { plain_records result.now ≡ plain_records text.now }
{
    let mut at = text.len();
    'ends: while at > 0 && is_line_end(text[at - 1]) {
        at -= 1;
    }
    &text[..at]
}

/// Whether a byte ends a line.
fn is_line_end(byte: u8) -> bool
    ensures { result ≡ is_line_end byte }
{
    byte == b'\r' || byte == b'\n'
}

/// A text of the same records with no carriage return. If there was none it is one copy.
pub(crate) fn with_line_feeds(alloc: Global, text: &[u8]) -> Result<Vec<u8>, AllocError>
    ensures records { IfOk result (λ bytes. plain_records bytes.items ≡ plain_records text.now) }
    ensures lines { IfOk result (λ bytes. NoReturn bytes.items) }
{
    let mut bytes = Vec::new(alloc);
    bytes.reserve_exact(text.len())?;
    let mut at = 0;
    'returns: while let Some(count) = memchr(b'\r', &text[at..]) {
        bytes.extend_from_slice(&text[at..at + count])?;
        at += count + 1;
        if at == text.len() || text[at] != b'\n' {
            bytes.extend_from_slice(b"\n")?;
        }
    }
    bytes.extend_from_slice(&text[at..])?;
    Ok(bytes)
}
