//! A section: some bytes, their length in front of them and their checksum after them.
//!
//! A file of states is sections one after another: its head, its blocks, its foot. What is in them is looked at only after
//! the length and the checksum are found right.

ghost use Rattle.std.specs.Prelude.{◌≡◌, ◌<◌, ◌≤◌, ◌^◌, ◌++◌, ℕ, List, ◌+◌, IfErr, IfNone, IfOk, IfSome, MatchOption, MatchResult, OnOk, length};
ghost use Rattle.std.specs.Int.{to_le_bytes, w32};
ghost use Rattle.state_file.specs.Section.{IsNoSection, section};

use crate::checksum::crc32c;
use crate::front::{read_bytes, read_u32};
use std::alloc::AllocError;

/// Why some bytes begin with no section: they end within it, it is said to have this many bytes, which is more than it may
/// have, or its checksum is another one.
#[derive(Clone, Copy, Debug, PartialEq, Eq)]
pub enum SectionRead {
    Short,
    Long { bytes: u32 },
    Sum,
}

/// Puts the section of these bytes at the end of some others: eight bytes more than they are.
pub fn push_section(out: &mut Vec<u8>, part: &[u8]) -> Result<(), AllocError>
    requires { length part.now < 2 ^ 32 }
    ensures { OnOk result (out.new.items ≡ out.old.items ++ section part.now) }
{
    out.extend_from_slice(&(part.len() as u32).to_le_bytes())?;
    out.extend_from_slice(part)?;
    out.extend_from_slice(&crc32c(part).to_le_bytes())?;
    Ok(())
}

/// The bytes of the section that some bytes begin with, if they are at most `most`, and the bytes after it. It costs one
/// pass over the section, and none over a longer one.
pub fn read_section(bytes: &[u8], most: u32) -> Result<(&[u8], &[u8]), SectionRead>
    ensures read { IfOk result (λ found. (bytes.now ≡ section found.0.now ++ found.1.now) × (length found.0.now ≤ most)) }
    ensures written { (part rest : List ℕ) → length part ≤ most → bytes.now ≡ section part ++ rest → MatchResult result (λ found. (found.0.now ≡ part) × (found.1.now ≡ rest)) (λ why. ⊥) }

    // When each error comes.
    ensures refused { IfErr result (IsNoSection most bytes.now) }
{
    let Some((size, after)) = read_u32(bytes) else {
        return Err(SectionRead::Short);
    };
    if size > most {
        return Err(SectionRead::Long { bytes: size });
    }
    let Some((part, sum, rest)) = read_sum(after, size) else {
        return Err(SectionRead::Short);
    };
    if sum != crc32c(part) {
        return Err(SectionRead::Sum);
    }
    Ok((part, rest))
}

/// This many bytes, the number in four bytes after them, and the bytes after that.
fn read_sum(bytes: &[u8], size: u32) -> Option<(&[u8], u32, &[u8])>
    ensures read { IfSome result (λ found. (bytes.now ≡ found.0.now ++ (to_le_bytes w32 found.1 ++ found.2.now)) × (length found.0.now ≡ size)) }
    ensures written { (part rest : List ℕ) (sum : ℕ) → length part ≡ size → sum < 2 ^ 32 → bytes.now ≡ part ++ (to_le_bytes w32 sum ++ rest)
        → MatchOption result ⊥ (λ found. (found.0.now ≡ part) × (found.1 ≡ sum) × (found.2.now ≡ rest)) }
    ensures short { IfNone result (length bytes.now < size + 4) }
{
    let Some((part, after)) = read_bytes(bytes, size as usize) else {
        return None;
    };
    match read_u32(after) {
        Some((sum, rest)) => Some((part, sum, rest)),
        None => None,
    }
}
