//! The text of an answer: a word, and numbers after it.

ghost use Rattle.std.specs.Prelude.{◌≡◌, ◌++◌, IfOk, codes, decimal};

use std::alloc::{AllocError, Global};

/// A text by itself.
pub fn plain(alloc: Global, text: &str) -> Result<Vec<u8>, AllocError>
    ensures { IfOk result (λ answer. answer.items ≡ text.now) }
{
    Vec::from_slice(alloc, text.as_bytes())
}

/// A text, and a number after it.
pub fn with_number(alloc: Global, text: &str, n: u64) -> Result<Vec<u8>, AllocError>
    ensures { IfOk result (λ answer. answer.items ≡ text.now ++ decimal n) }
{
    let mut answer = plain(alloc, text)?;
    answer.extend_from_slice(itoa::Buffer::new().format(n).as_bytes())?;
    Ok(answer)
}

/// A text, a number, a space, and a second number.
pub fn with_numbers(
    alloc: Global,
    text: &str,
    first: u64,
    second: u128,
) -> Result<Vec<u8>, AllocError>
    ensures { IfOk result (λ answer. answer.items ≡ text.now ++ (decimal first ++ (codes " " ++ decimal second))) }
{
    let mut answer = with_number(alloc, text, first)?;
    answer.push(b' ')?;
    answer.extend_from_slice(itoa::Buffer::new().format(second).as_bytes())?;
    Ok(answer)
}

/// A text, and bytes after it.
pub(crate) fn with_bytes(alloc: Global, text: &str, bytes: &[u8]) -> Result<Vec<u8>, AllocError>
    ensures { IfOk result (λ answer. answer.items ≡ text.now ++ bytes.now) }
{
    let mut answer = plain(alloc, text)?;
    answer.extend_from_slice(bytes)?;
    Ok(answer)
}
