//! What some bytes begin with: this many bytes, or a number of four, the lowest byte first.
//!
//! Each reader gives what it read and the bytes after it, and None only if the bytes end before. What was written in front
//! of some bytes is what is read, so readers one after another read what was written one after another.

ghost use Rattle.std.specs.Prelude.{◌≡◌, ◌<◌, ◌^◌, ◌++◌, ℕ, List, IfNone, IfSome, MatchOption, length};
ghost use Rattle.std.specs.Int.{to_le_bytes, w32};

/// The first `count` bytes, and those after them.
pub fn read_bytes(bytes: &[u8], count: usize) -> Option<(&[u8], &[u8])>
    ensures read { IfSome result (λ found. (bytes.now ≡ found.0.now ++ found.1.now) × (length found.0.now ≡ count)) }
    ensures written { (part rest : List ℕ) → length part ≡ count → bytes.now ≡ part ++ rest → MatchOption result ⊥ (λ found. (found.0.now ≡ part) × (found.1.now ≡ rest)) }
    ensures short { IfNone result (length bytes.now < count) }
{
    if bytes.len() < count {
        return None;
    }
    Some(bytes.split_at(count))
}

/// A number in four bytes, and the bytes after it.
pub fn read_u32(bytes: &[u8]) -> Option<(u32, &[u8])>
    ensures read { IfSome result (λ found. bytes.now ≡ to_le_bytes w32 found.0 ++ found.1.now) }
    ensures written { (n : ℕ) (rest : List ℕ) → n < 2 ^ 32 → bytes.now ≡ to_le_bytes w32 n ++ rest → MatchOption result ⊥ (λ found. (found.0 ≡ n) × (found.1.now ≡ rest)) }
    ensures short { IfNone result (length bytes.now < 4) }
{
    match read_bytes(bytes, 4) {
        Some((front, rest)) => Some((u32_of(front), rest)),
        None => None,
    }
}

/// The number that is written as these bytes.
fn u32_of(bytes: &[u8]) -> u32
    requires { length bytes.now ≡ 4 }
    ensures bytes { to_le_bytes w32 result ≡ bytes.now }
    ensures fits { result < 2 ^ 32 }
{
    u32::from_le_bytes([bytes[0], bytes[1], bytes[2], bytes[3]])
}
