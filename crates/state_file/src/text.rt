//! Numbers up to a bound, and texts: some bytes after how many they are.

ghost use Rattle.std.specs.Prelude.{◌≡◌, ◌≤◌, ◌++◌, ℕ, List, IfSome, MatchOption, OnOk, length};
ghost use Rattle.state_file.specs.Number.{number_bytes};
ghost use Rattle.state_file.specs.Text.{text_bytes};

use crate::front::read_bytes;
use crate::number::{push_number, read_number};
use std::alloc::AllocError;

/// The number that some bytes begin with, if it is no greater than this, and the bytes after it.
pub fn read_count(bytes: &[u8], most: u64) -> Option<(u64, &[u8])>
    ensures read { IfSome result (λ found. (bytes.now ≡ number_bytes found.0 ++ found.1.now) × (found.0 ≤ most)) }
    ensures written { (n : ℕ) (rest : List ℕ) → n ≤ most → bytes.now ≡ number_bytes n ++ rest → MatchOption result ⊥ (λ found. (found.0 ≡ n) × (found.1.now ≡ rest)) }
{
    match read_number(bytes) {
        Some((n, rest)) => {
            if n <= u128::from(most) {
                Some((n as u64, rest))
            } else {
                None
            }
        }
        None => None,
    }
}

/// Puts a text at the end of some bytes: its bytes and at most ten more.
pub fn push_text(out: &mut Vec<u8>, text: &[u8]) -> Result<(), AllocError>
    ensures { OnOk result (out.new.items ≡ out.old.items ++ text_bytes text.now) }
{
    push_number(out, text.len() as u128)?;
    out.extend_from_slice(text)?;
    Ok(())
}

/// The text, of at most this many bytes, that some bytes begin with, and the bytes after it.
pub fn read_text(bytes: &[u8], most: u64) -> Option<(&[u8], &[u8])>
    ensures read { IfSome result (λ found. (bytes.now ≡ text_bytes found.0.now ++ found.1.now) × (length found.0.now ≤ most)) }
    ensures written { (text rest : List ℕ) → length text ≤ most → bytes.now ≡ text_bytes text ++ rest → MatchOption result ⊥ (λ found. (found.0.now ≡ text) × (found.1.now ≡ rest)) }
{
    let Some((size, after)) = read_count(bytes, most) else {
        return None;
    };
    match read_bytes(after, size as usize) {
        Some((text, rest)) => Some((text, rest)),
        None => None,
    }
}
